// What the program does between reading and writing: a batch on an empty list, and the last record.
#![tactic(auto)]

ghost use Rattle.std.specs.Prelude.{◌≡◌, ◌+◌, ◌≤◌, length};
ghost use Rattle.std.proofs.lemmas.List.Edits.{sets};
ghost use Rattle.scan.specs.Scan.{output_bytes, closing, Scans};

use pool::{HEAD_WORDS, NODE_WORDS};

// The most input that is run; the output that it can ask for, 18,436 bytes of answers and 10 of the last record.
pub const MOST_INPUT: usize = 2048;

pub const OUTPUT_BYTES: usize = 9 * MOST_INPUT + 4 + 10;

const POOL_NODES: usize = 60;

const POOL_WORDS: usize = HEAD_WORDS + NODE_WORDS * POOL_NODES;

// Writes the last record at a place, and gives the place after it. Kind and number are 01's bytes; the place is where `closing` stands.
#[tactic(auto, unfolding(records::specs::Numbers::bytes_of))]
fn close(output: &mut [u8], at: usize, number: u64, commands: u64, read: u64) -> usize
    requires { at + 10 ≤ length output.old }
    ensures value { result ≡ at + 10 }
    ensures output_after { output.new ≡ sets output.old at (closing number commands read) }
{
    let end = records::write_fields(output, at, 0x8F, number, 1, commands, 4);
    records::write_number(&mut output[end..end + 4], read);
    end + 4
}

// Runs the commands of the input on an empty list, and gives how many bytes of the output are the answer to it (a length and no slice:
// `Scans` speaks of the whole output). The 8 is 01's.
pub fn scan(input: &[u8], output: &mut [u8]) -> usize
    requires { length output.old ≡ output_bytes }
    ensures { Scans input.now result output.new }
{
    if MOST_INPUT < input.len() {
        return close(output, 0, 8, 0, 0);
    }
    let mut pool = [0u64; POOL_WORDS];
    let _ = door::format(&mut pool);
    let ran = batch::batch(&mut pool, input, output);
    close(
        output,
        ran.written as usize,
        ran.number,
        ran.commands,
        ran.read,
    )
}
