// Lookup and replacement in a tree that is known to stand in the pool.
// The pool is lent beside a node's id, its levels and an index: 01 has the pool as a slice, and `get`, `replace` (and `stretch` like them) call
// themselves on the child. An edit breaks what stands there between two writes, so that no type can hold it.
#![tactic(auto)]

ghost use Rattle.std.specs.Prelude.{◌≡◌, ◌+◌, ◌*◌, ◌^◌, ◌<◌, get_or};
ghost use Rattle.tree.specs.Lookup.{Above, Turns, Has, Got, Counted, Spans, HasElement, Swapped, Replaced};

use model::{Found, Stretch};
use pool::{ELEMS, NODE_WORDS};

// What is known of the bag in a pool: the root's id, 0 for none as in the pool, the inner levels, and how many nodes are free.
#[derive(Clone, Copy)]
pub struct Known {
    pub root: usize,
    pub levels: usize,
    pub free: usize,
}

// Where an index goes from a node: the finder's place (flat, since each use names one field), the child's id, and whether it is the
// separator after the child.
#[derive(Clone, Copy)]
pub struct Turn {
    pub child: usize,
    pub sub: usize,
    pub compared: usize,
    pub id: usize,
    pub separator: bool,
}

// Element i of node k, whose words are lent as in `pool`.
pub fn element(pool: &[u64], k: usize, i: usize) -> u64
    requires { HasElement pool.now k i }
    ensures { (s : HasElement pool.now k i) → result ≡ get_or s.node.elems i 0 }
{
    let a = pool::start_of(k);
    pool::elem(&pool[a..a + NODE_WORDS], i)
}

// Puts x in the place of element i of node k, and gives the old one.
pub fn swap_element(pool: &mut [u64], k: usize, i: usize, x: u64) -> u64
    requires { HasElement pool.old k i }
    ensures { (s : HasElement pool.old k i) → Swapped pool.old pool.new k i x s.node result }
{
    let a = pool::start_of(k);
    std::mem::replace(&mut pool[a + ELEMS + i], x)
}

// The way that an index goes from node id.
pub fn way_to(pool: &[u64], id: usize, index: usize) -> Turn
    requires { Above pool.now id index }
    ensures { (s : Above pool.now id index) → Turns s.height s.tree index result }
{
    let a = pool::start_of(id);
    let node = &pool[a..a + NODE_WORDS];
    let p = pool::find_child_index(pool, node, index);
    let k = pool::kid(node, p.child);
    Turn {
        child: p.child,
        sub: p.sub,
        compared: p.compared,
        id: k,
        separator: p.sub == pool::length_at(pool, k),
    }
}

// The element at an index. The child lengths compared on the way are added to `compared`.
// Nothing is left to do after the call, and its arguments fit the registers, so that the compiler makes a loop of it.
fn get(pool: &&[u64], id: usize, levels: usize, index: usize, compared: &mut usize) -> u64
    requires has { Has pool.now.now levels id index }
    requires levels_bound { compared.old + 32 * levels < 2 ^ 64 }
    ensures { (s : Has pool.now.now levels id index)
        → Counted levels s.stands.tree index compared.old compared.new result }
{
    if levels == 0 {
        return element(*pool, id, index);
    }
    let t = way_to(*pool, id, index);
    *compared += t.compared;
    if t.separator {
        return element(*pool, id, t.child);
    }
    get(pool, t.id, levels - 1, t.sub, compared)
}

// The element at an index, and the child lengths compared on the way to it.
pub fn look_up(pool: &[u64], id: usize, levels: usize, index: usize) -> Found
    requires { Has pool.now levels id index }
    ensures { Got pool.now levels id index result }
{
    let mut compared = 0;
    let element = get(&pool, id, levels, index, &mut compared);
    Found { element, compared }
}

// Where the element at an index stands, with those after it in the same leaf; an inner node's by itself.
pub fn stretch(pool: &[u64], id: usize, levels: usize, index: usize) -> Stretch
    requires { Has pool.now levels id index }
    ensures { Spans pool.now levels id index result }
{
    if levels == 0 {
        return Stretch {
            node: id,
            slot: index,
            count: pool::count_at(pool, id) - index,
        };
    }
    let t = way_to(pool, id, index);
    if t.separator {
        return Stretch {
            node: id,
            slot: t.child,
            count: 1,
        };
    }
    stretch(pool, t.id, levels - 1, t.sub)
}

// Puts x in the place of the element at an index, and gives the old one.
pub fn replace(pool: &mut [u64], id: usize, levels: usize, index: usize, x: u64) -> u64
    requires { Has pool.old levels id index }
    ensures { (s : Has pool.old levels id index)
        → Replaced pool.old pool.new levels s.stands.tree index x result }
{
    if levels == 0 {
        return swap_element(pool, id, index, x);
    }
    let t = way_to(pool, id, index);
    if t.separator {
        return swap_element(pool, id, t.child, x);
    }
    replace(pool, t.id, levels - 1, t.sub, x)
}
