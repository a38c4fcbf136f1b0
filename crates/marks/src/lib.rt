// Marks of the numbers from 1 on: one bit for each, in words that the caller lends.
#![tactic(auto)]

ghost use Rattle.std.specs.Prelude.{◌≡◌, ◌-◌, ◌*◌, ◌%◌, ◌^◌, ◌≤◌, ◌<◌, eqb, length};
ghost use Rattle.marks.specs.Marks.{seen, Claimed, TakesOut};

// The marks that a word has room for.
pub const WORD_MARKS: usize = 64;

// A bit that was set in a word, and the word without it.
#[derive(Clone, Copy)]
pub struct Taken {
    pub bit: usize,
    pub rest: u64,
}

// The bit of k in its word.
fn mask_of(k: usize) -> u64
    requires { 1 ≤ k }
    ensures { result ≡ 2 ^ ((k - 1) % 64) }
{
    1u64 << ((k - 1) % WORD_MARKS)
}

// Whether k is marked.
fn is_marked(marks: &[u64], k: usize) -> bool
    requires { (1 ≤ k) × (k ≤ 64 * length marks.now) }
    ensures { result ≡ eqb (seen marks.now k) 1 }
{
    let i = (k - 1) / WORD_MARKS;
    marks[i] & mask_of(k) != 0
}

// Marks k if it was not marked, and says whether it was not.
pub fn claim(marks: &mut [u64], k: usize) -> bool
    requires { (1 ≤ k) × (k ≤ 64 * length marks.old) }
    ensures { Claimed result marks.old k marks.new }
{
    if is_marked(marks, k) {
        return false;
    }
    let at = (k - 1) / WORD_MARKS;
    marks[at] |= mask_of(k);
    true
}

// Takes the lowest bit out of a word that has one.
pub fn lowest(word: u64) -> Taken
    requires { 0 < word }
    ensures { TakesOut word result }
{
    Taken {
        bit: word.trailing_zeros() as usize,
        rest: word & (word - 1),
    }
}
