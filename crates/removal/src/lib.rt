// Removal from a tree that is known to stand in the pool. Pool, id, levels and index stand side by side as
// in `tree`, what is known as in `calls`.
#![tactic(auto)]

ghost use Rattle.model.specs.Tree.{rooted};
ghost use Rattle.model.specs.Remove.{remove, lowered};
ghost use Rattle.tree.specs.Stands.{Became};
ghost use Rattle.removal.specs.Ready.{RemoveReady, Removes, LowerReady, BagHas, BagRemoves};
ghost use Rattle.removal.specs.Down.{descend, DownReady, Went, UpReady, Up};

use pieces::Spot;
use pool::LENGTH;
use tree::Known;

// What a removal below a node gives: the element, and how many nodes it freed.
#[derive(Clone, Copy)]
pub struct Cut {
    pub old: u64,
    pub freed: usize,
}

// What a removal from the whole list gives: the element, and what is known of the bag then.
#[derive(Clone, Copy)]
pub struct Taken {
    pub old: u64,
    pub known: Known,
}

// Where a removal goes on below a node: the child, the index in it, the separator, if any, whose place what is removed there takes,
// and how many nodes were freed on the way.
#[derive(Clone, Copy)]
pub struct Descent {
    pub id: usize,
    pub index: usize,
    pub swaps: Option<usize>,
    pub freed: usize,
}

// ---- one level of a removal, and all levels

// The way of a removal through node id, until it goes below. What came in front when a child was filled moves the index in it.
fn go_down(pool: &mut [u64], id: usize, index: usize) -> Descent
    requires { DownReady pool.old id index }
    ensures { (s : DownReady pool.old id index) → Went pool.old pool.new
        s.height s.ready.tree s.ready.free (descend s.height s.ready.tree index s.ready.free) result }
{
    let t = tree::way_to(pool, id, index);
    let c = t.child;
    if !t.separator {
        let f = repair::fill(pool, id, c);
        Descent {
            id: f.id,
            index: t.sub + f.ahead,
            swaps: None,
            freed: f.freed,
        }
    } else if !repair::is_thin(pool, id, c) {
        Descent {
            id: t.id,
            index: t.sub - 1,
            swaps: Some(c),
            freed: 0,
        }
    } else if !repair::is_thin(pool, id, c + 1) {
        let k = pool::kid_at(pool, id, c + 1);
        Descent {
            id: k,
            index: 0,
            swaps: Some(c),
            freed: 0,
        }
    } else {
        repair::merge(pool, id, c);
        Descent {
            id: t.id,
            index: t.sub,
            swaps: None,
            freed: 1,
        }
    }
}

// One element below node id is gone: x, or x takes the place of a separator, which is then given back.
fn come_up(pool: &mut [u64], id: usize, swaps: Option<usize>, x: u64) -> u64
    requires { UpReady pool.old id swaps }
    ensures { (s : UpReady pool.old id swaps) → Up pool.old pool.new id swaps x s.node result }
{
    let a = pool::start_of(id);
    pool[a + LENGTH] -= 1;
    match swaps {
        Some(c) => tree::swap_element(pool, id, c, x),
        None => x,
    }
}

// Takes the element at an index out of the tree at node id.
pub fn remove(pool: &mut [u64], id: usize, levels: usize, index: usize) -> Cut
    requires { RemoveReady pool.old levels id index }
    ensures { (s : RemoveReady pool.old levels id index) → Removes pool.old pool.new
        levels s.tree s.free (remove levels s.tree index s.free) result }
{
    if levels == 0 {
        let from = Spot {
            node: id,
            elem: index,
            kid: index,
        };
        let p = pieces::take_out(pool, from, 1);
        return Cut {
            old: p.elem,
            freed: 0,
        };
    }
    let d = go_down(pool, id, index);
    let below = remove(pool, d.id, levels - 1, d.index);
    let old = come_up(pool, id, d.swaps, below.old);
    Cut {
        old,
        freed: d.freed + below.freed,
    }
}

// A root left without elements is freed, and its one child, if it has one, takes over.
fn lower(pool: &mut [u64], known: Known) -> Known
    requires { LowerReady pool.old known }
    ensures { (s : LowerReady pool.old known) → Became pool.old pool.new
        (record { root = rooted known.levels s.tree; free = s.free }) (lowered known.levels s.tree s.free) result }
{
    if pool::count_at(pool, known.root) > 0 {
        return known;
    }
    let k = pool::kid_at(pool, known.root, 0);
    chain::give_node(pool, known.root);
    let free = known.free + 1;
    if known.levels == 0 {
        Known {
            root: 0,
            levels: 0,
            free,
        }
    } else {
        Known {
            root: k,
            levels: known.levels - 1,
            free,
        }
    }
}

// Takes the element at an index out of the list.
pub fn remove_index(pool: &mut [u64], known: Known, index: usize) -> Taken
    requires { BagHas pool.old known index }
    ensures { (s : BagHas pool.old known index) → BagRemoves pool.old pool.new s.bag index result }
{
    let c = remove(pool, known.root, known.levels, index);
    let left = Known {
        free: known.free + c.freed,
        ..known
    };
    Taken {
        old: c.old,
        known: lower(pool, left),
    }
}
