// The door's calls under the names that C and Rust link: one export a call. A lent slice passes as a pointer and its number of words.
#![tactic(auto)]

ghost use Rattle.model.specs.Calls.{refused, check_call, len_call, get_call, skip_call, stays, insert_call, push_call, replace_call, remove_call};
ghost use Rattle.views.specs.Part.{nowhere, part_call};
ghost use Rattle.admission.specs.Promise.{Edits, Tells, Compares, Formats};
ghost use Rattle.batch.specs.Batch.{Batches};

use commands::Ran;
use model::{Answer, Walked};
use views::Span;

#[unsafe(no_mangle)]
pub extern "C" fn bag_format(pool: &mut [u64]) -> Answer
    ensures { Formats pool.old result pool.new }
{
    door::format(pool).into()
}

#[unsafe(no_mangle)]
pub extern "C" fn bag_check(pool: &[u64]) -> Answer
    ensures { Tells refused check_call pool.now result }
{
    door::check(pool).into()
}

#[unsafe(no_mangle)]
pub extern "C" fn bag_len(pool: &[u64]) -> Answer
    ensures { Tells refused len_call pool.now result }
{
    door::len(pool).into()
}

#[unsafe(no_mangle)]
pub extern "C" fn bag_insert(pool: &mut [u64], index: u64, element: u64) -> Answer
    ensures { Edits (insert_call index element) pool.old result pool.new }
{
    door::insert(pool, index, element).into()
}

#[unsafe(no_mangle)]
pub extern "C" fn bag_push(pool: &mut [u64], element: u64) -> Answer
    ensures { Edits (push_call element) pool.old result pool.new }
{
    door::push(pool, element).into()
}

#[unsafe(no_mangle)]
pub extern "C" fn bag_get(pool: &[u64], index: u64) -> Answer
    ensures { Tells refused (get_call index) pool.now result }
{
    door::get(pool, index).into()
}

#[unsafe(no_mangle)]
pub extern "C" fn bag_replace(pool: &mut [u64], index: u64, element: u64) -> Answer
    ensures { Edits (replace_call index element) pool.old result pool.new }
{
    door::replace(pool, index, element).into()
}

#[unsafe(no_mangle)]
pub extern "C" fn bag_remove(pool: &mut [u64], index: u64) -> Answer
    ensures { Edits (remove_call index) pool.old result pool.new }
{
    door::remove(pool, index).into()
}

#[unsafe(no_mangle)]
pub extern "C" fn bag_step(pool: &[u64], position: u64) -> Walked
    ensures { Tells (stays position) (skip_call position 0) pool.now result }
{
    door::step(pool, position)
}

#[unsafe(no_mangle)]
pub extern "C" fn bag_skip(pool: &[u64], position: u64, m: u64) -> Walked
    ensures { Tells (stays position) (skip_call position m) pool.now result }
{
    door::skip(pool, position, m)
}

#[unsafe(no_mangle)]
pub extern "C" fn bag_equal(a: &[u64], b: &[u64]) -> Answer
    ensures { Compares a.now b.now result }
{
    door::equal(a, b).into()
}

// The window by numbers: its first word in the pool, and how many.
#[unsafe(no_mangle)]
pub extern "C" fn bag_window(pool: &[u64], index: u64) -> Span
    ensures { Tells (λ _. nowhere) (part_call index) pool.now result }
{
    door::part(pool, index)
}

// Commands in bytes, one after the other. The two byte slices pass as the pool does, with their lengths in bytes.
#[unsafe(no_mangle)]
pub extern "C" fn bag_batch(pool: &mut [u64], input: &[u8], output: &mut [u8]) -> Ran
    ensures { Batches pool.old input.now output.old result pool.new output.new }
{
    batch::batch(pool, input, output)
}
