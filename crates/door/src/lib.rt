// The calls that firmware makes, on any words at all. Each checks the pool in full, and hands a refusal on.
#![tactic(auto)]

ghost use Rattle.model.specs.Calls.{refused, told, done, gives, found, whether, check_call, len_call, get_call, skip_call, stays, insert_call, push_call, replace_call, remove_call};
ghost use Rattle.views.specs.Part.{nowhere, part_call};
ghost use Rattle.admission.specs.Promise.{Edits, Tells, Compares, Formats, Windows};

use admission::admit;
use model::{Found, Refusal, Walked};
use views::Span;

// Makes an empty list of any old contents.
pub fn format(pool: &mut [u64]) -> Result<(), Refusal>
    ensures { Formats pool.old (told done result) pool.new }
{
    if !pool::length_fits(pool.len()) {
        return Err(Refusal::Misfit);
    }
    chain::format(pool);
    Ok(())
}

pub fn check(pool: &[u64]) -> Result<(), Refusal>
    ensures { Tells refused check_call pool.now (told done result) }
{
    admit(pool)?;
    Ok(())
}

pub fn len(pool: &[u64]) -> Result<u64, Refusal>
    ensures { Tells refused len_call pool.now (told gives result) }
{
    let known = admit(pool)?;
    Ok(calls::len(pool, known))
}

pub fn get(pool: &[u64], index: u64) -> Result<Found, Refusal>
    ensures { Tells refused (get_call index) pool.now (told found result) }
{
    let known = admit(pool)?;
    calls::get(pool, known, index)
}

pub fn insert(pool: &mut [u64], index: u64, x: u64) -> Result<(), Refusal>
    ensures { Edits (insert_call index x) pool.old (told done result) pool.new }
{
    let mut known = admit(pool)?;
    calls::insert(pool, &mut known, index, x)
}

pub fn push(pool: &mut [u64], x: u64) -> Result<(), Refusal>
    ensures { Edits (push_call x) pool.old (told done result) pool.new }
{
    let mut known = admit(pool)?;
    calls::push(pool, &mut known, x)
}

pub fn replace(pool: &mut [u64], index: u64, x: u64) -> Result<u64, Refusal>
    ensures { Edits (replace_call index x) pool.old (told gives result) pool.new }
{
    let known = admit(pool)?;
    calls::replace(pool, known, index, x)
}

pub fn remove(pool: &mut [u64], index: u64) -> Result<u64, Refusal>
    ensures { Edits (remove_call index) pool.old (told gives result) pool.new }
{
    let mut known = admit(pool)?;
    calls::remove(pool, &mut known, index)
}

// A skip of no elements. Both are told in C's struct, which has a refusal's position too.
pub fn step(pool: &[u64], position: u64) -> Walked
    ensures { Tells (stays position) (skip_call position 0) pool.now result }
{
    skip(pool, position, 0)
}

pub fn skip(pool: &[u64], position: u64, m: u64) -> Walked
    ensures { Tells (stays position) (skip_call position m) pool.now result }
{
    match admit(pool) {
        Ok(known) => views::skip(pool, known, position, m),
        Err(why) => Walked {
            number: why.into(),
            element: 0,
            position,
        },
    }
}

pub fn equal(a: &[u64], b: &[u64]) -> Result<bool, Refusal>
    ensures { Compares a.now b.now (told whether result) }
{
    let in_a = admit(a)?;
    let in_b = admit(b)?;
    Ok(views::equal(a, in_a, b, in_b))
}

// Where the window lies in the pool, and how many words it has; nowhere where it is refused.
pub fn part(pool: &[u64], index: u64) -> Span
    ensures { Tells (λ _. nowhere) (part_call index) pool.now result }
{
    match admit(pool) {
        Ok(known) => views::part(pool, known, index),
        Err(_) => Span { start: 0, count: 0 },
    }
}

// The stretch of the pool that holds the element at an index and those after it in the same leaf.
pub fn window(pool: &[u64], index: u64) -> &[u64]
    ensures { Windows index pool.now pool.entry.ref_ptr result.now result.ref_ptr }
{
    let s = part(pool, index);
    let a = s.start;
    let e = a + s.count;
    &pool[a..e]
}
