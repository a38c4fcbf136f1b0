// Tries the batch on short inputs and the program's work on long ones, and writes a line for each case, all in hexadecimal.
#![tactic(auto)]

ghost use Rattle.std.specs.Prelude.{◌*◌, ◌≤◌, length};

use pool::{HEAD_WORDS, NODE_WORDS};
use scan::{MOST_INPUT, OUTPUT_BYTES};
use std::io;
use std::io::{BufWriter, Write};

const WORDS: usize = HEAD_WORDS + NODE_WORDS;

// A whole insertion; the ways to cut one, and all six kinds cut in each of them.
const COMMAND: usize = 13;

const CUTS: usize = COMMAND + 1;

const CUT_COMMANDS: usize = 6 * CUTS;

// A batch's output, and what stands in it beforehand, so that every byte that was written shows.
const ROOM: usize = 27;

const UNTOUCHED: u8 = 0xEE;

const LAST_RECORD: usize = 10;

// How many insertions with a lookup behind each go into the program's input.
const INSERTIONS: usize = 113;

fn show(out: &mut impl Write, bytes: &[u8]) -> io::Result<()> {
    write!(out, " ")?;
    for byte in bytes {
        write!(out, "{byte:02x}")?;
    }
    Ok(())
}

fn show_number(out: &mut impl Write, n: u64) -> io::Result<()> {
    write!(out, " {n:x}")
}

fn show_list(out: &mut impl Write, pool: &[u64]) -> io::Result<()> {
    for i in 0..door::len(pool).unwrap_or(0) {
        show_number(out, door::get(pool, i).map_or(0, |f| f.element))?;
    }
    Ok(())
}

// A batch with so much room: its input, what it gives, all of the output, and the list that it leaves. What it gives is
// C's struct.
fn run(out: &mut impl Write, pool: &mut [u64], input: &[u8], room: usize) -> io::Result<()>
    requires { room ≤ 27 }
{
    let mut output = [UNTOUCHED; ROOM];
    let ran = batch::batch(pool, input, &mut output[..room]);
    write!(out, "batch")?;
    show(out, input)?;
    show_number(out, ran.number)?;
    show_number(out, ran.commands)?;
    show_number(out, ran.read)?;
    show_number(out, ran.written)?;
    show(out, &output)?;
    show_list(out, pool)?;
    writeln!(out)
}

// 01's example, on an empty list.
fn example(out: &mut impl Write, pool: &mut [u64], room: usize) -> io::Result<()>
    requires { room ≤ 27 }
{
    let _ = door::format(pool);
    let input = [3u8, 7, 0, 0, 0, 0, 0, 0, 0, 4, 0, 0, 0, 0, 2, 1, 0, 0, 0];
    run(out, pool, &input, room)
}

// The first n bytes of a kind (01's byte: unknown ones are tried too) and what follows, on a list of three. A kind with a shorter body has
// commands behind it, up to one cut short or, behind a push, an unknown one.
fn command(out: &mut impl Write, pool: &mut [u64], kind: u8, n: usize) -> io::Result<()>
    requires { n ≤ 13 }
{
    let _ = door::format(pool);
    for sample in [0xA, 0xB, 0xC] {
        let _ = door::push(pool, sample);
    }
    let input = [kind, 2, 0, 0, 0, 6, 3, 0, 0, 0xFF, 0, 0, 0];
    run(out, pool, &input[..n], ROOM)
}

fn each_kind(out: &mut impl Write, pool: &mut [u64]) -> io::Result<()> {
    for kind in 0..=u8::MAX {
        command(out, pool, kind, COMMAND)?;
    }
    Ok(())
}

fn each_cut(out: &mut impl Write, pool: &mut [u64]) -> io::Result<()> {
    for i in 0..CUT_COMMANDS {
        command(out, pool, (i / CUTS + 1) as u8, i % CUTS)?;
    }
    Ok(())
}

// The program's work: the lengths of input and answer, the last record, and a digest of the answer.
fn work(out: &mut impl Write, input: &[u8]) -> io::Result<()> {
    let mut output = [UNTOUCHED; OUTPUT_BYTES];
    let n = scan::scan(input, &mut output);
    let last = n - LAST_RECORD;
    write!(out, "program")?;
    show_number(out, input.len() as u64)?;
    show_number(out, n as u64)?;
    show(out, &output[last..n])?;
    show_number(out, digest::rolled_all(0, &output[..n]))?;
    writeln!(out)
}

// As much of one kind (01's byte, unknown ones too) as is run, and a byte more.
fn one_kind(out: &mut impl Write, kind: u8) -> io::Result<()> {
    let input = [kind; MOST_INPUT + 1];
    work(out, &input[..MOST_INPUT])?;
    work(out, &input)
}

fn each_long(out: &mut impl Write) -> io::Result<()> {
    for kind in 0..8 {
        one_kind(out, kind)?;
    }
    Ok(())
}

// Insertions in the middle, and a lookup behind each.
fn fill(input: &mut [u8])
    requires { 18 * 113 ≤ length input.old }
{
    for k in 0..INSERTIONS {
        let n = k as u64;
        records::write_fields(input, 18 * k, 1, n / 2, 4, n * 2654435761, 8);
        records::write_fields(input, 18 * k + 13, 4, n / 3, 4, 0, 0);
    }
}

fn insertions(out: &mut impl Write) -> io::Result<()> {
    let mut input = [6u8; MOST_INPUT];
    fill(&mut input);
    work(out, &input)
}

fn main(rt: HostRuntime) -> io::Result<()> {
    let mut out = BufWriter::new(rt.alloc(), io::writer(&rt))?;
    let mut pool = [0u64; WORDS];
    example(&mut out, &mut pool, ROOM)?;
    example(&mut out, &mut pool, ROOM - 1)?;
    each_kind(&mut out, &mut pool)?;
    each_cut(&mut out, &mut pool)?;
    work(&mut out, b"")?;
    each_long(&mut out)?;
    insertions(&mut out)?;
    out.flush()
}
