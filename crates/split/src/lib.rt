// Full nodes split: a child under its parent, and the root under a new root.
#![tactic(auto)]

ghost use Rattle.std.specs.Prelude.{◌≡◌, [], ◌∷◌, map, suc, ◌+◌, get_or, take, drop};
ghost use Rattle.lists.specs.Lists.{sum, insert_at};
ghost use Rattle.model.specs.Insert.{split_child};
ghost use Rattle.pool.specs.Layout.{node_block, with_block};
ghost use Rattle.pool.specs.Parts.{length_at};
ghost use Rattle.chain.specs.Chain.{Blank};
ghost use Rattle.tree.specs.Stands.{Reshaped};
ghost use Rattle.split.specs.Nodes.{HasKidRoom, Summed, Full, Moves};
ghost use Rattle.split.specs.Ready.{SplitReady, RaiseReady, Raised};

use pool::{COUNT, ELEMS, KIDS, LENGTH, NODE_WORDS};

// The elements below 16 children of node k, from child `from` on; a leaf has none.
fn sum_lengths(pool: &[u64], k: usize, from: usize) -> usize
    requires { Summed pool.now k from }
    ensures { (s : Summed pool.now k from)
        → result ≡ sum (map (length_at pool.now) (take 16 (drop from s.node.kids))) }
{
    let a = pool::start_of(k);
    let node = &pool[a..a + NODE_WORDS];
    let mut sum = 0;
    for j in &node[KIDS + from..KIDS + from + 16] {
        if *j != 0 {
            sum += pool::length_at(pool, *j as usize);
        }
    }
    sum
}

// Puts x into node k, as its element c, and child j behind it. Both come from below the node.
#[tactic(auto, using(tree::proofs::Standing::lent_count))]
fn put_separator(pool: &mut [u64], k: usize, c: usize, x: u64, j: usize)
    requires { HasKidRoom pool.old k c }
    ensures { (s : HasKidRoom pool.old k c)
        → pool.new ≡ with_block pool.old k
        (node_block s.node.size (insert_at s.node.elems c x) (insert_at s.node.kids (c + 1) j)) }
{
    let a = pool::start_of(k);
    let node = &mut pool[a..a + NODE_WORDS];
    let n = node[COUNT] as usize;
    words::open_gap(node, ELEMS + c, ELEMS + n, x);
    words::open_gap(node, KIDS + (c + 1), KIDS + (n + 1), j as u64);
    node[COUNT] = (n + 1) as u64;
}

// The upper half of node k goes to the blank node j, whose length is n then.
fn move_upper(pool: &mut [u64], k: usize, j: usize, n: usize)
    requires { Moves pool.old k j }
    ensures { (s : Moves pool.old k j)
        → pool.new ≡ with_block pool.old j (node_block n (drop 16 s.node.elems) (drop 16 s.node.kids)) }
{
    let a = pool::start_of(k);
    let b = pool::start_of(j);
    words::copy_run(pool, a + (ELEMS + 16), b + ELEMS, 15);
    words::copy_run(pool, a + (KIDS + 16), b + KIDS, 16);
    pool[b + COUNT] = 15;
    pool[b + LENGTH] = n as u64;
}

// Node k keeps its lower half, and its length is n then.
fn keep_lower(pool: &mut [u64], k: usize, n: usize)
    requires { Full pool.old k }
    ensures { (s : Full pool.old k)
        → pool.new ≡ with_block pool.old k (node_block n (take 15 s.node.elems) (take 16 s.node.kids)) }
{
    let a = pool::start_of(k);
    let node = &mut pool[a..a + NODE_WORDS];
    words::clear_run(node, ELEMS + 15, 16);
    words::clear_run(node, KIDS + 16, 16);
    node[COUNT] = 15;
    node[LENGTH] = n as u64;
}

// The blank node k becomes a node without elements over one child, below which are n elements.
#[tactic(auto, using(crate::proofs::Nodes::above_put))]
fn put_above(pool: &mut [u64], k: usize, child: usize, n: usize)
    requires { Blank pool.old k }
    ensures { pool.new ≡ with_block pool.old k (node_block n [] (child ∷ [])) }
{
    let a = pool::start_of(k);
    let node = &mut pool[a..a + NODE_WORDS];
    node[LENGTH] = n as u64;
    node[KIDS] = child as u64;
}

// Child c of node id, which is full, gives its upper half to a new sibling behind it, and its middle element to the node.
pub fn split_child(pool: &mut [u64], id: usize, c: usize)
    requires { SplitReady pool.old id c }
    ensures { (s : SplitReady pool.old id c)
        → Reshaped pool.old pool.new (suc s.height) s.tree s.free
        (split_child s.height s.tree c (get_or s.free 0 0)) (drop 1 s.free) }
{
    let child = pool::kid_at(pool, id, c);
    let middle = tree::element(pool, child, 15);
    let left = sum_lengths(pool, child, 0) + 15;
    let right = sum_lengths(pool, child, 16) + 15;
    let sibling = chain::take_node(pool);
    move_upper(pool, child, sibling, right);
    keep_lower(pool, child, left);
    put_separator(pool, id, c, middle, sibling);
}

// The full root goes under a new root, and is split. Gives the new root.
pub fn raise_root(pool: &mut [u64], old: usize) -> usize
    requires { RaiseReady pool.old old }
    ensures { (s : RaiseReady pool.old old)
        → Raised pool.old pool.new s.height s.tree s.free result }
{
    let n = pool::length_at(pool, old);
    let root = chain::take_node(pool);
    put_above(pool, root, old, n);
    split_child(pool, root, 0);
    root
}
