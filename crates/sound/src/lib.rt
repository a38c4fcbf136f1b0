// The soundness check of a pool (01): the shape of the tree, then the words of its nodes, then the free chain, and that every
// node was met. One bit for each node tells which were met.
// Nodes are numbers in the lent pool, and pool, p and marks go on side by side, as in `pool` and `shape`.
#![tactic(auto)]

ghost use Rattle.std.specs.Prelude.{◌≡◌, ℕ, ◌+◌, ◌*◌, ◌<◌, ◌≤◌, length};
ghost use Rattle.std.specs.Int.{bit_at};
ghost use Rattle.pool.specs.Layout.{node_words, block};
ghost use Rattle.pool.specs.Parts.{Inside, count_at, kid_at, kid_ids_at};
ghost use Rattle.marks.specs.Marks.{seen};
ghost use Rattle.shape.specs.Shape.{Decides, MarksFit};
ghost use Rattle.sound.specs.Filled.{Clear, Readable, Filled, AddsUp};
ghost use Rattle.sound.specs.Check.{Trees, Chains, Checks};

use marks::{WORD_MARKS, claim, lowest};
use model::Refusal;
use pool::{
    CHAIN_WORD, ELEMS, HEAD_WORDS, KIDS, LINK, MOST_NODES, NODE_WORDS, ROOT_WORD, count_at, kid_at,
    leaf_at, length_at, length_fits, start_of,
};

// The words of marks that the largest pool asks for.
const MARK_WORDS: usize = MOST_NODES / WORD_MARKS;

// A word with all its marks.
const ALL: u64 = u64::MAX;

// Words that are looked at together: a number that the compiler knows.
const STEP: usize = 16;

// What the check finds of a sound pool: the inner levels of its tree, and its free nodes.
#[derive(Clone, Copy)]
pub struct Checked {
    pub levels: usize,
    pub free: usize,
}

// ---- words that are 0

// Whether the words of a node from `from` up to `to` are 0, by places, as `Clear` has it. All are read, with no way out between.
fn zeros(node: &[u64], from: usize, to: usize) -> bool
    requires { (from ≤ to) × (to ≤ length node.now) }
    ensures { Decides result (Clear node.now from to) }
{
    node[from..to].iter().fold(0, |all, word| all | *word) == 0
}

fn zeros_at(pool: &[u64], k: usize, from: usize, to: usize) -> bool
    requires inside { Inside pool.now k }
    requires from_le_to { (from ≤ to) × (to ≤ node_words) }
    ensures { Decides result (Clear (block pool.now k) from to) }
{
    let a = start_of(k);
    zeros(&pool[a..a + NODE_WORDS], from, to)
}

// Whether the words of a leaf from `from` on are 0: the element slots in steps of one length, then the child slots and the link.
// The last step may reach into the child slots, which are 0 in a leaf as well.
fn rest_zeros(pool: &[u64], k: usize, from: usize) -> bool
    requires inside { Inside pool.now k }
    requires from_bound { from ≤ 33 }
    ensures { Decides result (Clear (block pool.now k) from node_words) }
{
    for i in (from..KIDS).step_by(STEP) {
        if !zeros_at(pool, k, i, i + STEP) {
            return false;
        }
    }
    zeros_at(pool, k, KIDS, NODE_WORDS)
}

// ---- the second pass: the words of the tree's nodes

// Whether the length of an inner node is that of its elements and its children. What is left of it falls, so that no sum can wrap.
fn adds_up(pool: &[u64], k: usize) -> bool
    requires inside { Inside pool.now k }
    requires k_bound { count_at pool.now k ≤ 31 }
    requires by_index { (c : ℕ) → c < count_at pool.now k + 1 → Inside pool.now (kid_at pool.now k c) }
    ensures { Decides result (AddsUp pool.now k (kid_ids_at pool.now k)) }
{
    let n = count_at(pool, k);
    let Some(mut left) = length_at(pool, k).checked_sub(n) else {
        return false;
    };
    // Not 0..=n, which is tested twice for each child.
    for c in 0..n + 1 {
        let Some(rest) = left.checked_sub(length_at(pool, kid_at(pool, k, c))) else {
            return false;
        };
        left = rest;
    }
    left == 0
}

// Whether the unused slots of a node of the tree and its link are 0, and its length is right.
fn filled(pool: &[u64], k: usize) -> bool
    requires { Readable pool.now k }
    ensures { Decides result (Filled pool.now k) }
{
    let n = count_at(pool, k);
    if leaf_at(pool, k) {
        return length_at(pool, k) == n && rest_zeros(pool, k, ELEMS + n);
    }
    if !zeros_at(pool, k, ELEMS + n, KIDS) {
        return false;
    }
    if !zeros_at(pool, k, KIDS + n + 1, NODE_WORDS) {
        return false;
    }
    adds_up(pool, k)
}

// Whether the nodes are filled whose marks are set in a word, of which only those are visited; its first mark is that of node `first`.
fn word_filled(pool: &[u64], first: usize, word: u64) -> bool
    requires { (j : ℕ) → j < 64 → bit_at word j ≡ 1 → Readable pool.now (first + j) }
    ensures { Decides result ((j : ℕ) → j < 64 → bit_at word j ≡ 1 → Filled pool.now (first + j)) }
{
    let mut rest = word;
    while rest != 0 {
        let l = lowest(rest);
        if !filled(pool, first + l.bit) {
            return false;
        }
        rest = l.rest;
    }
    true
}

// Whether every node that is marked is filled: a word of marks at a time.
fn all_filled(pool: &[u64], p: usize, marks: &[u64]) -> bool
    requires marks_fit { MarksFit pool.now p marks.now }
    requires by_index { (k : ℕ) → 1 ≤ k → seen marks.now k ≡ 1 → (k ≤ p) × Readable pool.now k }
    ensures { Decides result ((k : ℕ) → 1 ≤ k → seen marks.now k ≡ 1 → Filled pool.now k) }
{
    for (i, word) in marks[..p.div_ceil(WORD_MARKS)].iter().enumerate() {
        if !word_filled(pool, i * WORD_MARKS + 1, *word) {
            return false;
        }
    }
    true
}

// ---- the whole pool

// Whether the tree is right: both passes. Marks its nodes.
fn tree(pool: &[u64], p: usize, marks: &mut [u64]) -> Option<usize>
    requires marks_fit { MarksFit pool.now p marks.old }
    requires by_index { (k : ℕ) → seen marks.old k ≡ 0 }
    ensures { Trees result pool.now p marks.old marks.new }
{
    let root = pool[ROOT_WORD] as usize;
    if root == 0 {
        return Some(0);
    }
    let levels = shape::depth(pool, p, root);
    if !shape::shape(pool, p, marks, root, levels) {
        return None;
    }
    if !all_filled(pool, p, marks) {
        return None;
    }
    Some(levels)
}

// Whether the free chain is right, and its nodes were not met. Marks and counts them.
fn chain(pool: &[u64], p: usize, marks: &mut [u64]) -> Option<usize>
    requires { MarksFit pool.now p marks.old }
    ensures { Chains result pool.now marks.old marks.new }
{
    let mut k = pool[CHAIN_WORD] as usize;
    for free in 0..=p {
        if k == 0 {
            return Some(free);
        }
        if p < k {
            return None;
        }
        // The link is read first, so that the next node can be fetched while this one is looked at.
        let next = pool[start_of(k) + LINK] as usize;
        let new = claim(marks, k);
        if !new {
            return None;
        }
        if !zeros_at(pool, k, 0, LINK) {
            return None;
        }
        k = next;
    }
    None
}

// Whether every node is marked.
fn all_marked(marks: &[u64], p: usize) -> bool
    requires { p ≤ 64 * length marks.now }
    ensures { Decides result ((k : ℕ) → 1 ≤ k → k ≤ p → seen marks.now k ≡ 1) }
{
    let whole = p / WORD_MARKS;
    if !marks[..whole].iter().all(|word| *word == ALL) {
        return false;
    }
    let left = p % WORD_MARKS;
    if left == 0 {
        return true;
    }
    let most = (1u64 << left) - 1;
    marks[whole] & most == most
}

// Checks the pool in full.
pub fn check(pool: &[u64]) -> Result<Checked, Refusal>
    ensures { Checks pool.now result }
{
    if !length_fits(pool.len()) {
        return Err(Refusal::Misfit);
    }
    let p = (pool.len() - HEAD_WORDS) / NODE_WORDS;
    let mut marks = [0u64; MARK_WORDS];
    let levels = tree(pool, p, &mut marks).ok_or(Refusal::Unsound)?;
    let free = chain(pool, p, &mut marks).ok_or(Refusal::Unsound)?;
    if !all_marked(&marks, p) {
        return Err(Refusal::Unsound);
    }
    Ok(Checked { levels, free })
}
