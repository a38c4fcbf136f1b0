// The pool: where a node's words are, what they say, and the child finder.
// A node's words go as `&pool[a..a + 66]` to the finder and to each node fact (01, forms by place), so they are no type of their own, and each
// fact of node k is a function that lends them.
#![tactic(auto)]

ghost use Rattle.std.specs.Prelude.{◌≡◌, ◌+◌, ◌^◌, ◌<◌, ◌≤◌, eqb, leb, length, get_or};
ghost use Rattle.model.specs.Tree.{find_in};
ghost use Rattle.pool.specs.Layout.{node_words, start};
ghost use Rattle.pool.specs.Sound.{fits};
ghost use Rattle.pool.specs.Parts.{Inside, count_at, length_at, kid_at};
ghost use Rattle.pool.specs.Find.{Inner, kid_lengths};

use model::Place;

// The layout, as 01's table has it.
pub const ROOT_WORD: usize = 0;

pub const CHAIN_WORD: usize = 1;

pub const HEAD_WORDS: usize = 2;

pub const NODE_WORDS: usize = 66;

pub const MOST_NODES: usize = 4096;

// Where a node's parts are among its words.
pub const COUNT: usize = 0;

pub const LENGTH: usize = 1;

pub const ELEMS: usize = 2;

pub const KIDS: usize = 33;

pub const LINK: usize = 65;

// Whether a pool of n words can be one: what so many nodes take, and not too many.
#[tactic(auto, unfolding(crate::specs::Sound::fits))]
pub fn length_fits(n: usize) -> bool
    ensures { result ≡ fits n }
{
    if n < HEAD_WORDS {
        return false;
    }
    let p = (n - HEAD_WORDS) / NODE_WORDS;
    n == HEAD_WORDS + NODE_WORDS * p && p <= MOST_NODES
}

// Where node k starts.
pub fn start_of(k: usize) -> usize
    requires { (1 ≤ k) × (start k < 2 ^ 64) }
    ensures { result ≡ start k }
{
    HEAD_WORDS + NODE_WORDS * (k - 1)
}

// How many elements a node has itself.
pub fn count_of(node: &[u64]) -> usize
    requires { length node.now ≡ node_words }
    ensures { result ≡ get_or node.now 0 0 }
{
    node[COUNT] as usize
}

// The source's `len`: how many elements a node has with all below it.
pub fn len(node: &[u64]) -> usize
    requires { length node.now ≡ node_words }
    ensures { result ≡ get_or node.now 1 0 }
{
    node[LENGTH] as usize
}

// Both counts of node k in the pool.
#[tactic(auto, using(crate::proofs::Store::block_in))]
pub fn count_at(pool: &[u64], k: usize) -> usize
    requires { Inside pool.now k }
    ensures { result ≡ count_at pool.now k }
{
    let a = start_of(k);
    count_of(&pool[a..a + NODE_WORDS])
}

#[tactic(auto, using(crate::proofs::Store::block_in))]
pub fn length_at(pool: &[u64], k: usize) -> usize
    requires { Inside pool.now k }
    ensures { result ≡ length_at pool.now k }
{
    let a = start_of(k);
    len(&pool[a..a + NODE_WORDS])
}

// The id of its child c.
#[tactic(auto, using(crate::proofs::Store::block_in))]
pub fn kid_at(pool: &[u64], k: usize, c: usize) -> usize
    requires inside { Inside pool.now k }
    requires c_bound { c < 32 }
    ensures { result ≡ kid_at pool.now k c }
{
    let a = start_of(k);
    kid(&pool[a..a + NODE_WORDS], c)
}

// Whether it has none.
#[tactic(auto, using(crate::proofs::Store::block_in))]
pub fn leaf_at(pool: &[u64], k: usize) -> bool
    requires { Inside pool.now k }
    ensures { result ≡ eqb (kid_at pool.now k 0) 0 }
{
    let a = start_of(k);
    is_leaf(&pool[a..a + NODE_WORDS])
}

pub fn is_leaf(node: &[u64]) -> bool
    requires { length node.now ≡ node_words }
    ensures { result ≡ eqb (get_or node.now 33 0) 0 }
{
    node[KIDS] == 0
}

pub fn is_full(node: &[u64]) -> bool
    requires { length node.now ≡ node_words }
    ensures { result ≡ leb 31 (get_or node.now 0 0) }
{
    31 <= node[COUNT]
}

pub fn elem(node: &[u64], i: usize) -> u64
    requires node_len { length node.now ≡ node_words }
    requires i_bound { i < 31 }
    ensures { result ≡ get_or node.now (2 + i) 0 }
{
    node[ELEMS + i]
}

pub fn kid(node: &[u64], c: usize) -> usize
    requires node_len { length node.now ≡ node_words }
    requires c_bound { c < 32 }
    ensures { result ≡ get_or node.now (33 + c) 0 }
{
    node[KIDS + c] as usize
}

// The child of a node that an index goes into: an index equal to a child's end goes to that child's end.
pub fn find_child_index(pool: &[u64], node: &[u64], index: usize) -> Place
    requires { Inner pool.now node.now index }
    ensures { result ≡ find_in (kid_lengths pool.now node.now) index }
{
    let mut sub = index;
    for child in 0..=count_of(node) {
        let n = length_at(pool, kid(node, child));
        if sub <= n {
            return Place {
                child,
                sub,
                compared: child + 1,
            };
        }
        sub -= n + 1;
    }
    unreachable!()
}
