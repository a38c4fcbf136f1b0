// The chain of free nodes: the first is taken, a node is given back in front, and formatting gives it every node. Nodes are numbers
// in the lent pool, as in `pool`.
#![tactic(auto)]

ghost use Rattle.std.specs.Prelude.{◌≡◌, List, ℕ, ◌<◌, length};
ghost use Rattle.lists.specs.Lists.{count};
ghost use Rattle.model.specs.Tree.{empty};
ghost use Rattle.pool.specs.Layout.{words};
ghost use Rattle.pool.specs.Sound.{nodes_in, Sized};
ghost use Rattle.pool.specs.Parts.{Inside, ChainAt};
ghost use Rattle.chain.specs.Chain.{Free, Took, Gave};

use pool::{CHAIN_WORD, HEAD_WORDS, LINK, NODE_WORDS, ROOT_WORD, start_of};

// Takes the first free node out of the chain: the one that was freed last.
#[tactic(auto, using(crate::proofs::Chain::took))]
pub fn take_node(pool: &mut [u64]) -> usize
    requires { (f : List ℕ) × Free pool.old f }
    ensures { (f : List ℕ) → Free pool.old f → Took pool.old f result pool.new }
{
    let k = pool[CHAIN_WORD] as usize;
    let a = start_of(k);
    pool[CHAIN_WORD] = pool[a + LINK];
    pool[a + LINK] = 0;
    k
}

// Puts node k in front of the chain, all its words 0 but the link.
pub fn give_node(pool: &mut [u64], k: usize)
    requires { Inside pool.old k }
    ensures { (f : List ℕ) → ChainAt pool.old f → count k f ≡ 0 → Gave pool.old f k pool.new }
{
    let a = start_of(k);
    words::clear_run(pool, a, LINK);
    let first = pool[CHAIN_WORD];
    pool[a + LINK] = first;
    pool[CHAIN_WORD] = k as u64;
}

// Makes an empty list of any old contents: every node is given to the chain, the first one last.
pub fn format(pool: &mut [u64])
    requires { Sized pool.old }
    ensures { pool.new ≡ words (nodes_in (length pool.old)) (empty (nodes_in (length pool.old))) }
{
    pool[ROOT_WORD] = 0;
    pool[CHAIN_WORD] = 0;
    let n = (pool.len() - HEAD_WORDS) / NODE_WORDS;
    for k in (1..=n).rev() {
        give_node(pool, k);
    }
}
