// The calls on a pool that is known to hold a bag. What is known of it is brought up to date by the calls that change it. No type holds
// both: 01 has the pool as a slice, and before the new root is stored it holds no bag.
#![tactic(auto)]

ghost use Rattle.std.specs.Prelude.{◌≡◌, ◌<◌, length, get_or};
ghost use Rattle.pool.specs.Layout.{root_word};
ghost use Rattle.model.specs.Calls.{told, done, gives, found, length_of, get_call, insert_call, push_call, replace_call, remove_call};
ghost use Rattle.calls.specs.Does.{Ready, Does, place_of};

use model::{Found, Refusal};
use pool::ROOT_WORD;
use tree::Known;

// What is known of a pool that was checked.
pub fn known_of(pool: &[u64], levels: usize, free: usize) -> Known
    requires { root_word < length pool.now }
    ensures { result ≡ record { root = get_or pool.now root_word 0; levels = levels; free = free } }
{
    Known {
        root: pool[ROOT_WORD] as usize,
        levels,
        free,
    }
}

// How many elements the list has.
pub fn len(pool: &[u64], known: Known) -> u64
    requires { Ready pool.now known }
    ensures { (s : Ready pool.now known) → result ≡ length_of s.bag }
{
    let root = known.root;
    if root == 0 {
        return 0;
    }
    pool::length_at(pool, root) as u64
}

// The place of an element that the list has.
fn place(pool: &[u64], known: Known, index: u64) -> Result<usize, Refusal>
    requires { Ready pool.now known }
    ensures { (s : Ready pool.now known) → result ≡ place_of index s.bag }
{
    if index < len(pool, known) {
        Ok(index as usize)
    } else {
        Err(Refusal::PastTheEnd)
    }
}

#[tactic(auto, using(model::proofs::Calls::get_beyond))]
pub fn get(pool: &[u64], known: Known, index: u64) -> Result<Found, Refusal>
    requires { Ready pool.now known }
    ensures { (s : Ready pool.now known) → told found result ≡ get_call index s.bag }
{
    let i = place(pool, known, index)?;
    Ok(tree::look_up(pool, known.root, known.levels, i))
}

// Nothing that is known of the bag changes.
pub fn replace(pool: &mut [u64], known: Known, index: u64, x: u64) -> Result<u64, Refusal>
    requires { Ready pool.old known }
    ensures { (s : Ready pool.old known) → Does (replace_call index x) s.bag (told gives result) known pool.new }
{
    let at = place(pool, known, index)?;
    Ok(tree::replace(pool, known.root, known.levels, at, x))
}

// Puts x at an index, unless the nodes that this needs are not free. The new root is stored here.
pub fn insert(pool: &mut [u64], known: &mut Known, index: u64, x: u64) -> Result<(), Refusal>
    requires { Ready pool.old known.old }
    ensures { (s : Ready pool.old known.old) → Does (insert_call index x) s.bag (told done result) known.new pool.new }
{
    if len(pool, *known) < index {
        return Err(Refusal::PastTheEnd);
    }
    *known = insertion::insert(pool, *known, index as usize, x).ok_or(Refusal::NoRoom)?;
    pool[ROOT_WORD] = known.root as u64;
    Ok(())
}

pub fn push(pool: &mut [u64], known: &mut Known, x: u64) -> Result<(), Refusal>
    requires { Ready pool.old known.old }
    ensures { (s : Ready pool.old known.old) → Does (push_call x) s.bag (told done result) known.new pool.new }
{
    let n = len(pool, *known);
    insert(pool, known, n, x)
}

// Takes the element at an index out. The new root is stored here.
pub fn remove(pool: &mut [u64], known: &mut Known, index: u64) -> Result<u64, Refusal>
    requires { Ready pool.old known.old }
    ensures { (s : Ready pool.old known.old) → Does (remove_call index) s.bag (told gives result) known.new pool.new }
{
    let i = place(pool, *known, index)?;
    let r = removal::remove_index(pool, *known, i);
    *known = r.known;
    pool[ROOT_WORD] = known.root as u64;
    Ok(r.old)
}
