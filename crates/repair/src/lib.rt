// Brings a child of a node to 16 elements: a neighbour lends, or it is merged with one. The pool is lent beside the node, as in `tree`.
#![tactic(auto)]

ghost use Rattle.std.specs.Prelude.{◌≡◌, ◌∷◌, suc, ◌+◌, ◌-◌, ◌<◌};
ghost use Rattle.model.specs.Tree.{kid};
ghost use Rattle.model.specs.Remove.{is_thin, merge, borrow_left, borrow_right, repair_for, repaired, fill};
ghost use Rattle.tree.specs.Stands.{Reshaped};
ghost use Rattle.repair.specs.Ready.{PairReady, Few, LeftLends, RightLends, FillReady, Fills};

use model::Repair;
use pieces::Spot;

// A child that was brought to 16 elements: its node, how many elements came in front of its own, and how many nodes that freed.
#[derive(Clone, Copy)]
pub struct Refill {
    pub id: usize,
    pub ahead: usize,
    pub freed: usize,
}

impl Refill {
    // Nothing came in front.
    fn in_place(id: usize, freed: usize) -> Refill
        ensures { result ≡ record { id = id; ahead = 0; freed = freed } }
    {
        Refill {
            id,
            ahead: 0,
            freed,
        }
    }
}

// ---- two neighbouring children

// Children c and c + 1 of node id and the separator between them become one child; the right node is freed.
pub fn merge(pool: &mut [u64], id: usize, c: usize)
    requires { PairReady Few pool.old id c }
    ensures { (s : PairReady Few pool.old id c)
        → Reshaped pool.old pool.new (suc s.height) s.tree s.free
        (merge s.height s.tree c) ((kid s.height s.tree (c + 1)).id ∷ s.free) }
{
    let l = pool::kid_at(pool, id, c);
    let between = Spot {
        node: id,
        elem: c,
        kid: c + 1,
    };
    let p = pieces::take_out(pool, between, 0);
    pieces::append(pool, l, p.elem, p.kid);
    chain::give_node(pool, p.kid);
}

// Child c + 1 of node id borrows from child c.
pub fn borrow_left(pool: &mut [u64], id: usize, c: usize)
    requires { PairReady LeftLends pool.old id c }
    ensures { (s : PairReady LeftLends pool.old id c)
        → Reshaped pool.old pool.new (suc s.height) s.tree s.free
        (borrow_left s.height s.tree c) s.free }
{
    let l = pool::kid_at(pool, id, c);
    let r = pool::kid_at(pool, id, c + 1);
    let m = pool::count_at(pool, l);
    pieces::lend(pool, id, c, Spot::last(l, m), Spot::front(r));
}

// Child c of node id borrows from child c + 1.
pub fn borrow_right(pool: &mut [u64], id: usize, c: usize)
    requires { PairReady RightLends pool.old id c }
    ensures { (s : PairReady RightLends pool.old id c)
        → Reshaped pool.old pool.new (suc s.height) s.tree s.free
        (borrow_right s.height s.tree c) s.free }
{
    let l = pool::kid_at(pool, id, c);
    let r = pool::kid_at(pool, id, c + 1);
    let m = pool::count_at(pool, l);
    pieces::lend(pool, id, c, Spot::front(r), Spot::behind(l, m));
}

// ---- a child that has no element to spare

// Whether child c of node id has no element to spare.
pub fn is_thin(pool: &[u64], id: usize, c: usize) -> bool
    requires { FillReady pool.now id c }
    ensures { (s : FillReady pool.now id c) → result ≡ is_thin s.height (kid s.height s.tree c) }
{
    let k = pool::kid_at(pool, id, c);
    pool::count_at(pool, k) <= 15
}

// What is to be done for child c of node id before a removal goes into it.
fn repair_for(pool: &[u64], id: usize, c: usize) -> Repair
    requires { FillReady pool.now id c }
    ensures { (s : FillReady pool.now id c) → result ≡ repair_for s.height s.tree c }
{
    if !is_thin(pool, id, c) {
        Repair::Nothing
    } else if c > 0 && !is_thin(pool, id, c - 1) {
        Repair::FromLeft
    } else if c < pool::count_at(pool, id) && !is_thin(pool, id, c + 1) {
        Repair::FromRight
    } else if c > 0 {
        Repair::WithLeft
    } else {
        Repair::WithRight
    }
}

// Child c of node id borrows from child c - 1: what comes from there stands in front. (`fill_with_left` calls another function and counts
// other elements: one for both would be a match on which.)
fn fill_from_left(pool: &mut [u64], id: usize, c: usize) -> Refill
    requires c_nonzero { 0 < c }
    requires pair_ready { PairReady LeftLends pool.old id (c - 1) }
    ensures { (s : PairReady LeftLends pool.old id (c - 1)) → Fills pool.old pool.new
        s.height s.tree s.free c (repaired s.height Repair.FromLeft s.tree c s.free) result }
{
    let k = pool::kid_at(pool, id, c);
    let n = pool::length_at(pool, k);
    borrow_left(pool, id, c - 1);
    Refill {
        id: k,
        ahead: pool::length_at(pool, k) - n,
        freed: 0,
    }
}

// Child c of node id goes into child c - 1, whose own elements and the separator stand in front.
fn fill_with_left(pool: &mut [u64], id: usize, c: usize) -> Refill
    requires c_nonzero { 0 < c }
    requires pair_ready { PairReady Few pool.old id (c - 1) }
    ensures { (s : PairReady Few pool.old id (c - 1)) → Fills pool.old pool.new
        s.height s.tree s.free c (repaired s.height Repair.WithLeft s.tree c s.free) result }
{
    let l = pool::kid_at(pool, id, c - 1);
    let n = pool::length_at(pool, l);
    merge(pool, id, c - 1);
    Refill {
        id: l,
        ahead: n + 1,
        freed: 1,
    }
}

// Brings child c of node id to 16 elements or more.
pub fn fill(pool: &mut [u64], id: usize, c: usize) -> Refill
    requires { FillReady pool.old id c }
    ensures { (s : FillReady pool.old id c) → Fills pool.old pool.new
        s.height s.tree s.free c (fill s.height s.tree c s.free) result }
{
    let k = pool::kid_at(pool, id, c);
    match repair_for(pool, id, c) {
        Repair::Nothing => Refill::in_place(k, 0),
        Repair::FromLeft => fill_from_left(pool, id, c),
        Repair::FromRight => {
            borrow_right(pool, id, c);
            Refill::in_place(k, 0)
        }
        Repair::WithLeft => fill_with_left(pool, id, c),
        Repair::WithRight => {
            merge(pool, id, c);
            Refill::in_place(k, 1)
        }
    }
}
