// The bytes of commands and of answers: numbers, kinds, and the records that a batch writes. Kinds are 01's bytes, which these functions
// turn into enums and back. A command or a record is at a place of its slice, as in `next_at` and `sets`.
#![tactic(auto)]

ghost use Rattle.std.specs.Prelude.{◌≡◌, ◌∷◌, ◌++◌, ◌+◌, ◌≤◌, length};
ghost use Rattle.std.proofs.lemmas.List.Edits.{sets};
ghost use Rattle.records.specs.Numbers.{bytes_of, number_of, number_at};
ghost use Rattle.records.specs.Commands.{body_of, command_at, Stands};
ghost use Rattle.records.specs.Answers.{record_bytes, longest_record};

// The length of 85's record, which is the longest.
pub const LONGEST_RECORD: usize = 13;

#[derive(Clone, Copy, Debug, PartialEq, Eq)]
pub enum Command {
    Insert(u64, u64),
    Remove(u64),
    Push(u64),
    Get(u64),
    Replace(u64, u64),
    Len,
}

// What a batch answers to a command. A refusal has any number: an enum would ask more of who writes one.
#[derive(Clone, Copy, Debug, PartialEq, Eq)]
pub enum Record {
    Done,
    Element(u64),
    Length(u64),
    Refusal(u64),
    Got(u64, u64),
}

// The number in at most 8 bytes, the least byte first.
pub fn read_number(bytes: &[u8]) -> u64
    requires { length bytes.now ≤ 8 }
    ensures { result ≡ number_of bytes.now }
{
    let mut whole = [0; 8];
    whole[..bytes.len()].copy_from_slice(bytes);
    u64::from_le_bytes(whole)
}

// Fills the bytes with x, the least byte first.
#[tactic(auto, unfolding(crate::specs::Numbers::bytes_of))]
pub fn write_number(bytes: &mut [u8], x: u64)
    ensures { bytes.new ≡ bytes_of (length bytes.old) x }
{
    let mut rest = x;
    for byte in bytes {
        *byte = (rest % 256) as u8;
        rest /= 256;
    }
}

// How long the body of a kind is, if the kind is known.
#[tactic(auto, unfolding(crate::specs::Commands::body_of))]
pub fn body_length(kind: u8) -> Option<usize>
    ensures { result ≡ body_of kind }
{
    match kind {
        1 | 5 => Some(12),
        2 | 4 => Some(4),
        3 => Some(8),
        6 => Some(0),
        0 | 7..=255 => None,
    }
}

// The number in the N bytes at a place.
#[tactic(auto, unfolding(crate::specs::Numbers::number_at))]
fn number_at<const N: usize>(s: &[u8], at: usize) -> u64
    requires few { N ≤ 8 }
    requires in_bounds { at + N ≤ length s.now }
    ensures { result ≡ number_at s.now at N }
{
    read_number(&s[at..at + N])
}

// The command at a place where a whole one stands: an index is 4 bytes, an element 8.
#[tactic(auto, unfolding(crate::specs::Commands::body_of, crate::specs::Commands::command_at))]
pub fn read_command(s: &[u8], at: usize) -> Command
    requires { Stands s.now at }
    ensures { result ≡ command_at s.now at }
{
    match s[at] {
        1 => Command::Insert(number_at::<4>(s, at + 1), number_at::<8>(s, at + 5)),
        2 => Command::Remove(number_at::<4>(s, at + 1)),
        3 => Command::Push(number_at::<8>(s, at + 1)),
        4 => Command::Get(number_at::<4>(s, at + 1)),
        5 => Command::Replace(number_at::<4>(s, at + 1), number_at::<8>(s, at + 5)),
        _ => Command::Len,
    }
}

// Writes a kind, then x in n bytes and y in m, and gives the place after them.
pub fn write_fields(s: &mut [u8], at: usize, kind: u8, x: u64, n: usize, y: u64, m: usize) -> usize
    requires { at + 1 + n + m ≤ length s.old }
    ensures value { result ≡ at + length (kind ∷ bytes_of n x ++ bytes_of m y) }
    ensures s_after { s.new ≡ sets s.old at (kind ∷ bytes_of n x ++ bytes_of m y) }
{
    let middle = at + 1 + n;
    let end = middle + m;
    s[at] = kind;
    write_number(&mut s[at + 1..middle], x);
    write_number(&mut s[middle..end], y);
    end
}

// Writes a record at a place with room for the longest, and gives the place after it.
#[tactic(auto, unfolding(crate::specs::Answers::record_bytes))]
pub fn write_record(s: &mut [u8], at: usize, answer: Record) -> usize
    requires { at + longest_record ≤ length s.old }
    ensures value { result ≡ at + length (record_bytes answer) }
    ensures s_after { s.new ≡ sets s.old at (record_bytes answer) }
{
    match answer {
        Record::Done => write_fields(s, at, 0x81, 0, 0, 0, 0),
        Record::Element(x) => write_fields(s, at, 0x82, x, 8, 0, 0),
        Record::Length(n) => write_fields(s, at, 0x83, n, 8, 0, 0),
        Record::Refusal(n) => write_fields(s, at, 0x84, n, 1, 0, 0),
        Record::Got(x, n) => write_fields(s, at, 0x85, x, 8, n, 4),
    }
}
