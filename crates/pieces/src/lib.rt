// Pieces of nodes: an element with a child is taken out of a node, put into one, or goes through a separator from one to another.
// A leaf's child words are all 0, and stay so: they are not moved.
#![tactic(auto)]

ghost use Rattle.std.specs.Prelude.{◌≡◌, ◌∷◌, ◌++◌, ◌+◌, ◌-◌, ◌<◌, ◌≤◌, get_or};
ghost use Rattle.pool.specs.Layout.{node_block, with_block};
ghost use Rattle.pool.specs.Parts.{kid_at};
ghost use Rattle.pieces.specs.Pieces.{Takes, TookOut, Puts, put_in, Joins, length_or, HasSlot, Lends, Lent};

use pool::{COUNT, ELEMS, KIDS, LENGTH, NODE_WORDS};

// An element and a child that go from place to place together; the child is 0 in a leaf, as in the pool.
#[derive(Clone, Copy)]
pub struct Piece {
    pub elem: u64,
    pub kid: usize,
}

// A spot in a node, as element and child: where a piece is taken from, or put.
#[derive(Clone, Copy)]
pub struct Spot {
    pub node: usize,
    pub elem: usize,
    pub kid: usize,
}

impl Spot {
    // In front of all, or the first.
    pub fn front(node: usize) -> Spot
        ensures { result ≡ record { node = node; elem = 0; kid = 0 } }
    {
        Spot {
            node,
            elem: 0,
            kid: 0,
        }
    }

    // The last of a node that has so many elements.
    pub fn last(node: usize, count: usize) -> Spot
        requires { 0 < count }
        ensures { result ≡ record { node = node; elem = count - 1; kid = count } }
    {
        Spot {
            node,
            elem: count - 1,
            kid: count,
        }
    }

    // Behind all of a node that has so many elements.
    pub fn behind(node: usize, count: usize) -> Spot
        requires { count ≤ 31 }
        ensures { result ≡ record { node = node; elem = count; kid = count + 1 } }
    {
        Spot {
            node,
            elem: count,
            kid: count + 1,
        }
    }
}

// Takes the element and the child at a spot out of its node, and n elements of the subtree with them.
#[tactic(auto, using(tree::proofs::Standing::lent_long, tree::proofs::Standing::lent_count, tree::proofs::Standing::lent_length))]
pub fn take_out(pool: &mut [u64], from: Spot, n: usize) -> Piece
    requires { Takes pool.old from n }
    ensures { (s : Takes pool.old from n) → TookOut pool.old pool.new from n s.seated.node result }
{
    let a = pool::start_of(from.node);
    let node = &mut pool[a..a + NODE_WORDS];
    let m = node[COUNT] as usize;
    let s = node[LENGTH] as usize;
    let elem = words::close_gap(node, ELEMS + from.elem, ELEMS + m);
    let kid = if pool::is_leaf(node) {
        0
    } else {
        words::close_gap(node, KIDS + from.kid, KIDS + m + 1) as usize
    };
    node[COUNT] = (m - 1) as u64;
    node[LENGTH] = (s - n) as u64;
    Piece { elem, kid }
}

// Puts a piece, with n elements in all, into a node at a spot; without a child it goes into a leaf.
#[tactic(auto, using(tree::proofs::Standing::lent_long, tree::proofs::Standing::lent_count, tree::proofs::Standing::lent_length))]
fn put_in(pool: &mut [u64], to: Spot, p: Piece, n: usize)
    requires puts { Puts pool.old to n }
    requires k_value { p.kid ≡ 0 → kid_at pool.old to.node 0 ≡ 0 }
    ensures { (s : Puts pool.old to n)
        → pool.new ≡ with_block pool.old to.node (put_in s.seated.node to.elem to.kid p.elem p.kid n) }
{
    let a = pool::start_of(to.node);
    let node = &mut pool[a..a + NODE_WORDS];
    let m = node[COUNT] as usize;
    let s = node[LENGTH] as usize;
    words::open_gap(node, ELEMS + to.elem, ELEMS + m, p.elem);
    if p.kid != 0 {
        words::open_gap(node, KIDS + to.kid, KIDS + m + 1, p.kid as u64);
    }
    node[COUNT] = (m + 1) as u64;
    node[LENGTH] = (s + n) as u64;
}

// All of node r goes behind node l's own, with x between.
#[tactic(auto, using(tree::proofs::Standing::node_count, tree::proofs::Standing::node_size))]
pub fn append(pool: &mut [u64], l: usize, x: u64, r: usize)
    requires { Joins pool.old l r }
    ensures { (s : Joins pool.old l r)
        → pool.new ≡ with_block pool.old l (node_block (s.left.node.size + s.right.node.size + 1)
        (s.left.node.elems ++ x ∷ s.right.node.elems) (s.left.node.kids ++ s.right.node.kids)) }
{
    let m = pool::count_at(pool, l);
    let n = pool::count_at(pool, r);
    let s = pool::length_at(pool, l) + pool::length_at(pool, r) + 1;
    let a = pool::start_of(l);
    let b = pool::start_of(r);
    pool[a + ELEMS + m] = x;
    words::copy_run(pool, b + ELEMS, a + ELEMS + m + 1, n);
    if !pool::leaf_at(pool, r) {
        words::copy_run(pool, b + KIDS, a + KIDS + m + 1, n + 1);
    }
    pool[a + COUNT] = (m + n + 1) as u64;
    pool[a + LENGTH] = s as u64;
}

// How many elements are below child j of node k: none in a leaf.
fn length_below(pool: &[u64], k: usize, j: usize) -> usize
    requires { HasSlot pool.now k j }
    ensures { (s : HasSlot pool.now k j) → result ≡ length_or pool.now (get_or s.seated.node.kids j 0) }
{
    let y = pool::kid_at(pool, k, j);
    if y == 0 {
        return 0;
    }
    pool::length_at(pool, y)
}

// A piece goes from a spot in one node into the place of separator c of node id, and what stood there to a spot in another.
pub fn lend(pool: &mut [u64], id: usize, c: usize, from: Spot, to: Spot)
    requires { Lends pool.old id c from to }
    ensures { (s : Lends pool.old id c from to)
        → Lent pool.old pool.new id c from to s.lender.seated.node s.parent.node s.taker.node }
{
    let n = length_below(pool, from.node, from.kid) + 1;
    let p = take_out(pool, from, n);
    let elem = tree::swap_element(pool, id, c, p.elem);
    put_in(pool, to, Piece { elem, ..p }, n);
}
