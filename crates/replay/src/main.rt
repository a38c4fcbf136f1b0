// Replays commands that were recorded beside the original Rust. The first line of the input says how. Each block after it is a number
// of nodes, a number of bytes, 4 bytes each, and so many bytes of commands: they are run on an empty pool, and their answers and a digest
// of the pool's words are written.
#![tactic(auto)]

ghost use Rattle.std.specs.Prelude.{◌≡◌, ◌+◌, ◌-◌, ◌*◌, ◌≤◌, ◌++◌, length, drop, IfSome};

use pool::{HEAD_WORDS, NODE_WORDS};
use std::io;
use std::io::{BufWriter, Read, Write};

const MOST_INPUT: usize = 131072;

const MOST_NODES: usize = 60;

const WORDS: usize = HEAD_WORDS + NODE_WORDS * MOST_NODES;

const LINE_END: u8 = 10;

const BLOCK_HEAD: usize = 8;

const MOST_COMMANDS: usize = 24576;

// An answer has at most 9 bytes for each byte of its command.
const ROOM: usize = 9 * MOST_COMMANDS + 4;

// A number of nodes, and commands for a pool of so many.
#[derive(Clone, Copy)]
struct Block<'a> {
    nodes: usize,
    commands: &'a [u8],
    ghost few: { nodes ≤ 60 },
    ghost short: { length commands.now ≤ 24576 },
}

// The block in front, and what follows it; none where no whole one stands, or one of more than 60 nodes or 24,576 bytes.
fn split_block(input: &[u8]) -> Option<(Block<'_>, &[u8])>
    ensures { IfSome result (λ split. (8 ≤ length input.now) × (drop 8 input.now ≡ split.0.commands.now ++ split.1.now)) }
{
    let (head, body) = input.split_at_checked(BLOCK_HEAD)?;
    let nodes = records::read_number(&head[..4]) as usize;
    let n = records::read_number(&head[4..]) as usize;
    if MOST_NODES < nodes || MOST_COMMANDS < n {
        return None;
    }
    let (commands, rest) = body.split_at_checked(n)?;
    Some((Block { nodes, commands }, rest))
}

// Runs commands on an empty list, and gives their answers.
fn answer<'a>(pool: &mut [u64], commands: &[u8], output: &'a mut [u8]) -> &'a [u8]
    requires { 9 * length commands.now + 4 ≤ length output.old }
    ensures fits { length result.now ≤ length output.old }
    ensures in_front { result.ref_ptr ≡ output.entry.ref_ptr }
{
    let _ = door::format(pool);
    let ran = batch::batch(pool, commands, output);
    &output[..ran.written as usize]
}

// Writes what the commands of a block give.
fn show(out: &mut impl Write, block: Block<'_>) -> io::Result<()> {
    let mut words = [0u64; WORDS];
    let mut output = [0u8; ROOM];
    let pool = &mut words[..HEAD_WORDS + NODE_WORDS * block.nodes];
    out.write_all(answer(pool, block.commands, &mut output))?;
    let digest = digest::rolled_all(0, pool);
    writeln!(out, "{digest:016x}")
}

// What follows the first line.
fn after_line(input: &[u8]) -> &[u8]
    ensures { result.now ≡ drop (length input.now - length result.now) input.now }
{
    match input.iter().position(|byte| *byte == LINE_END) {
        Some(end) => &input[end + 1..],
        None => &[],
    }
}

fn replay_all(out: &mut impl Write, input: &[u8]) -> io::Result<()> {
    let mut rest = after_line(input);
    while let Some((block, others)) = split_block(rest) {
        show(out, block)?;
        rest = others;
    }
    Ok(())
}

fn main(rt: HostRuntime) -> io::Result<()> {
    let mut input = Vec::new(rt.alloc());
    rt.stdin().take(MOST_INPUT as u64).read_to_end(&mut input)?;
    let mut out = BufWriter::new(rt.alloc(), io::writer(&rt))?;
    replay_all(&mut out, &input)?;
    out.flush()
}
