// Insertion into a tree that is known to stand in the pool. Pool, id, levels and index stand side by side as in `tree`.
#![tactic(auto)]

ghost use Rattle.std.specs.Prelude.{◌≡◌, ◌+◌, leb, ltb, length};
ghost use Rattle.lists.specs.Lists.{insert_at};
ghost use Rattle.model.specs.Insert.{needed_below, needed as needed_for};
ghost use Rattle.pool.specs.Layout.{node_block, with_block};
ghost use Rattle.tree.specs.Node.{Node};
ghost use Rattle.tree.specs.Lookup.{Above, Turns};
ghost use Rattle.insertion.specs.Nodes.{HasRoom, Counts};
ghost use Rattle.insertion.specs.Ready.{InsertReady, BagReady, Inserts};
ghost use Rattle.insertion.specs.Steps.{RoomReady, MakesRoom, InsertsBelow, Upto};

use pool::{COUNT, ELEMS, LENGTH, NODE_WORDS};
use tree::{Known, Turn};

// Where an insertion goes on from a node: the child with room, the index in it, and how many nodes were taken to make the room.
#[derive(Clone, Copy)]
pub struct Entry {
    pub id: usize,
    pub sub: usize,
    pub taken: usize,
}

// Lends a node's words, as in `pool`.
fn is_full(pool: &[u64], k: usize) -> bool
    requires { Node pool.now k }
    ensures { (m : Node pool.now k) → result ≡ leb 31 (length m.elems) }
{
    let a = pool::start_of(k);
    pool::is_full(&pool[a..a + NODE_WORDS])
}

// Puts x into node k, as its element i.
#[tactic(auto, using(tree::proofs::Standing::lent_long, tree::proofs::Standing::lent_count, tree::proofs::Standing::lent_length))]
fn put_element(pool: &mut [u64], k: usize, i: usize, x: u64)
    requires { HasRoom pool.old k i }
    ensures { (s : HasRoom pool.old k i) → pool.new ≡ with_block pool.old k
        (node_block (s.node.size + 1) (insert_at s.node.elems i x) s.node.kids) }
{
    let a = pool::start_of(k);
    let node = &mut pool[a..a + NODE_WORDS];
    let n = node[COUNT] as usize;
    let all = node[LENGTH];
    words::open_gap(node, ELEMS + i, ELEMS + n, x);
    node[COUNT] = (n + 1) as u64;
    node[LENGTH] = all + 1;
}

// One element more is below node k.
fn lengthen(pool: &mut [u64], k: usize)
    requires { Counts pool.old k }
    ensures { (s : Counts pool.old k)
        → pool.new ≡ with_block pool.old k (node_block (s.node.size + 1) s.node.elems s.node.kids) }
{
    let a = pool::start_of(k);
    pool[a + LENGTH] += 1;
}

// The way that an index goes from node id, as `tree::way_to` finds it. One behind all elements goes to the last child: that is not searched for.
fn way_in(pool: &[u64], id: usize, index: usize) -> Turn
    requires { Above pool.now id index }
    ensures { (s : Above pool.now id index) → Turns s.height s.tree index result }
{
    if index < pool::length_at(pool, id) {
        return tree::way_to(pool, id, index);
    }
    let child = pool::count_at(pool, id);
    let k = pool::kid_at(pool, id, child);
    let sub = pool::length_at(pool, k);
    Turn {
        child,
        sub,
        compared: child + 1,
        id: k,
        separator: true,
    }
}

// The child that the index goes into, with room in it: a full one is split, and the index goes into its left half, or into the right one.
fn make_room(pool: &mut [u64], id: usize, index: usize) -> Entry
    requires { RoomReady pool.old id index }
    ensures { (q : RoomReady pool.old id index)
        → MakesRoom pool.old pool.new q.height q.ready.tree q.ready.free index result }
{
    let t = way_in(pool, id, index);
    if !is_full(pool, t.id) {
        return Entry {
            id: t.id,
            sub: t.sub,
            taken: 0,
        };
    }
    split::split_child(pool, id, t.child);
    let n = pool::length_at(pool, t.id);
    if t.sub <= n {
        Entry {
            id: t.id,
            sub: t.sub,
            taken: 1,
        }
    } else {
        Entry {
            id: pool::kid_at(pool, id, t.child + 1),
            sub: t.sub - n - 1,
            taken: 1,
        }
    }
}

// Puts x at the index below node id, which is not full. Gives the number of nodes that this took.
fn insert_into_non_full_node(
    pool: &mut [u64],
    id: usize,
    levels: usize,
    index: usize,
    x: u64,
) -> usize
    requires { InsertReady pool.old levels id index }
    ensures { (q : InsertReady pool.old levels id index)
        → InsertsBelow pool.old pool.new levels q.tree q.free index x result }
{
    if levels == 0 {
        put_element(pool, id, index, x);
        return 0;
    }
    let r = make_room(pool, id, index);
    let below = insert_into_non_full_node(pool, r.id, levels - 1, r.sub, x);
    lengthen(pool, id);
    r.taken + below
}

// The full nodes below node id on the way to the index.
fn needed_below(pool: &[u64], id: usize, levels: usize, index: usize) -> usize
    requires { Upto pool.now levels id index }
    ensures { (s : Upto pool.now levels id index) → result ≡ needed_below levels s.stands.tree index }
{
    if levels == 0 {
        return 0;
    }
    let t = way_in(pool, id, index);
    let below = needed_below(pool, t.id, levels - 1, t.sub);
    if is_full(pool, t.id) {
        1 + below
    } else {
        below
    }
}

// How many nodes an insertion at the index takes.
fn needed(pool: &[u64], known: Known, index: usize) -> usize
    requires { BagReady pool.now known index }
    ensures { (b : BagReady pool.now known index) → result ≡ needed_for b.bag.root index }
{
    if known.root == 0 {
        return 1;
    }
    let below = needed_below(pool, known.root, known.levels, index);
    if is_full(pool, known.root) {
        2 + below
    } else {
        below
    }
}

// Whether fewer nodes are free than an insertion at the index takes. It takes no more than one for each level and two for the root:
// where so many are free, nothing is searched.
fn lacks_room(pool: &[u64], known: Known, index: usize) -> bool
    requires { BagReady pool.now known index }
    ensures { (b : BagReady pool.now known index) → result ≡ ltb known.free (needed_for b.bag.root index) }
{
    known.free < known.levels + 2 && known.free < needed(pool, known, index)
}

// Puts x at the index, and gives what is known of the bag then; None where fewer nodes are free than this needs.
pub fn insert(pool: &mut [u64], known: Known, index: usize, x: u64) -> Option<Known>
    requires { BagReady pool.old known index }
    ensures { (b : BagReady pool.old known index) → Inserts pool.old pool.new b.bag index x result }
{
    if lacks_room(pool, known, index) {
        return None;
    }
    if known.root == 0 {
        let root = chain::take_node(pool);
        put_element(pool, root, 0, x);
        return Some(Known {
            root,
            levels: 0,
            free: known.free - 1,
        });
    }
    let top = if is_full(pool, known.root) {
        let root = split::raise_root(pool, known.root);
        Known {
            root,
            levels: known.levels + 1,
            free: known.free - 2,
        }
    } else {
        known
    };
    let taken = insert_into_non_full_node(pool, top.root, top.levels, index, x);
    Some(Known {
        free: top.free - taken,
        ..top
    })
}
