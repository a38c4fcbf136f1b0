// Runs of words in a slice: copied, cleared, and moved by one word. `sets xs at ys` is xs with ys stored from index `at` on: a run is a
// place and a length, so that each contract is one equation of the whole slice. (The pool is lent, and nodes are numbers in it: no heap.)
#![tactic(auto)]

ghost use Rattle.std.specs.Prelude.{◌≡◌, [], ◌∷◌, ◌++◌, ◌+◌, ◌-◌, ◌<◌, ◌≤◌, length, replicate, get_or};
ghost use Rattle.std.proofs.lemmas.List.Edits.{sets};
ghost use Rattle.words.specs.Words.{run};

// Copies the n words at `from` to `to`. A run may move over itself.
pub fn copy_run(w: &mut [u64], from: usize, to: usize, n: usize)
    requires n_in_bounds { from + n ≤ length w.old }
    requires n_in_bounds_2 { to + n ≤ length w.old }
    ensures { w.new ≡ sets w.old to (run w.old from n) }
{
    w.copy_within(from..from + n, to);
}

// Makes the n words at `at` 0.
pub fn clear_run(w: &mut [u64], at: usize, n: usize)
    requires { at + n ≤ length w.old }
    ensures { w.new ≡ sets w.old at (replicate n 0) }
{
    w[at..at + n].fill(0);
}

// Moves all words but the last up by one, and puts x in front. The last is lost.
// No rotation, here and in shift_down: the library's, for any distance, is slower and takes 4 KB of stack.
fn shift_up(part: &mut [u64], x: u64)
    requires { 0 < length part.old }
    ensures { part.new ≡ x ∷ run part.old 0 (length part.old - 1) }
{
    let last = part.len() - 1;
    part.copy_within(..last, 1);
    part[0] = x;
}

// Takes the first word out and returns it: the others move down by one, and the last becomes 0.
fn shift_down(part: &mut [u64]) -> u64
    requires { 0 < length part.old }
    ensures value { result ≡ get_or part.old 0 0 }
    ensures part_after { part.new ≡ run part.old 1 (length part.old - 1) ++ 0 ∷ [] }
{
    let x = part[0];
    let last = part.len() - 1;
    part.copy_within(1.., 0);
    part[last] = 0;
    x
}

// Moves the words from `at` to `end` up by one, and puts x at `at`. The word at `end` is lost.
pub fn open_gap(w: &mut [u64], at: usize, end: usize, x: u64)
    requires at_le_end { at ≤ end }
    requires end_in_bounds { end < length w.old }
    ensures { w.new ≡ sets w.old at (x ∷ run w.old at (end - at)) }
{
    let e = end + 1;
    shift_up(&mut w[at..e], x);
}

// Takes the word at `at` out and returns it: those after it, up to `end`, move down by one, and the last becomes 0.
pub fn close_gap(w: &mut [u64], at: usize, end: usize) -> u64
    requires at_lt_end { at < end }
    requires end_in_bounds { end ≤ length w.old }
    ensures value { result ≡ get_or w.old at 0 }
    ensures w_after { w.new ≡ sets w.old at (run w.old (at + 1) (end - at - 1) ++ 0 ∷ []) }
{
    shift_down(&mut w[at..end])
}
