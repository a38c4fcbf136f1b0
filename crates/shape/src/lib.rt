// The shape of the tree in a pool's words: the first pass of the check of 01. The words may be any at all.
// `pool`, `p` and `marks` go on side by side: in a type, lent by `&mut`, each contract would have to say that the pool and p stay.
#![tactic(auto)]

ghost use Rattle.std.specs.Prelude.{◌≡◌, ◌+◌, ◌*◌, ◌^◌, ◌<◌, ◌≤◌, length};
ghost use Rattle.pool.specs.Layout.{head_words, node_words};
ghost use Rattle.pool.specs.Parts.{count_at, levels_at};
ghost use Rattle.shape.specs.Shape.{Decides, MarksFit, InReach, Shapes, Sturdy, Grows, GrowsKids};

use marks::claim;
use pool::{count_at, kid_at, leaf_at};

// How many elements a node has: the least of a root, of any other node, and the most.
const LEAST_ROOT: usize = 1;

const LEAST: usize = 15;

const MOST: usize = 31;

// The inner levels of the tree at node k, along the first children: no more than there are nodes.
pub fn depth(pool: &[u64], p: usize, k: usize) -> usize
    requires { (length pool.now ≡ head_words + node_words * p) × (1 ≤ k) }
    ensures { result ≡ levels_at p pool.now k }
{
    let mut at = k;
    for levels in 0..p {
        if p < at {
            return levels;
        }
        at = kid_at(pool, at, 0);
        if at == 0 {
            return levels;
        }
    }
    p
}

// Whether node k is one of the pool, and has `least` to 31 elements.
fn sturdy(pool: &[u64], p: usize, k: usize, least: usize) -> bool
    requires { length pool.now ≡ head_words + node_words * p }
    ensures { Decides result (Sturdy pool.now p least k) }
{
    if k == 0 || p < k {
        return false;
    }
    let n = count_at(pool, k);
    least <= n && n <= MOST
}

// Whether p nodes can hold the fewest elements of a tree of `levels` inner levels: 2 · 16 ^ levels - 1. No power is taken that could wrap.
fn within_reach(p: usize, levels: usize) -> bool
    requires { 31 * p + 1 < 2 ^ 64 }
    ensures { Decides result (InReach p levels) }
{
    let mut left = (MOST * p + 1) / (LEAST_ROOT + 1);
    for _ in 0..levels {
        left /= LEAST + 1;
    }
    0 < left
}

// Whether the tree at node k, of `levels` inner levels, is well grown, and its nodes were not met. Marks them.
// The levels are few, whatever the words, and so is the stack that this takes.
#[cycle(grown_grown_kids)]
fn grown(pool: &[u64], p: usize, marks: &mut [u64], k: usize, levels: usize, least: usize) -> bool
    requires marks_fit { MarksFit pool.now p marks.old }
    requires in_reach { InReach p levels }
    ensures { Grows result pool.now p levels least k marks.old marks.new }
{
    if !sturdy(pool, p, k, least) {
        return false;
    }
    let fresh = claim(marks, k);
    if !fresh {
        return false;
    }
    if levels == 0 {
        return leaf_at(pool, k);
    }
    grown_kids(pool, p, marks, k, levels - 1)
}

// The same of the children of node k, of `levels` inner levels each.
#[cycle(grown_grown_kids)]
fn grown_kids(pool: &[u64], p: usize, marks: &mut [u64], k: usize, levels: usize) -> bool
    requires marks_fit { MarksFit pool.now p marks.old }
    requires le_k { (1 ≤ k) × (k ≤ p) × (count_at pool.now k ≤ 31) }
    requires in_reach { InReach p levels }
    ensures { GrowsKids result pool.now p levels k marks.old marks.new }
{
    let n = count_at(pool, k);
    // Not 0..=n, which is tested twice for each child.
    for c in 0..n + 1 {
        if !grown(pool, p, marks, kid_at(pool, k, c), levels, LEAST) {
            return false;
        }
    }
    true
}

// Whether the tree at node k is well shaped. Where nothing was marked before, its nodes are marked now.
pub fn shape(pool: &[u64], p: usize, marks: &mut [u64], k: usize, levels: usize) -> bool
    requires { MarksFit pool.now p marks.old }
    ensures { Shapes result pool.now p levels k marks.old marks.new }
{
    if !within_reach(p, levels) {
        return false;
    }
    grown(pool, p, marks, k, levels, LEAST_ROOT)
}
