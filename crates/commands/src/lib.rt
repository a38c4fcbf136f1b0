// The commands of a batch, one after the other, on a pool that is known to hold a bag; both are lent, as in `calls`.
#![tactic(auto)]

ghost use Rattle.std.specs.Prelude.{◌≡◌, length};
ghost use Rattle.calls.specs.Does.{Ready};
ghost use Rattle.commands.specs.Steps.{stop_number, turn_at, batch_of};
ghost use Rattle.commands.specs.OnBag.{on_bag, Runs};
ghost use Rattle.commands.specs.Serving.{Serves, record_of};

use model::Refusal;
use records::{Command, LONGEST_RECORD, Record};
use tree::Known;

// What a batch gives, as C has it, wherever it stops: 01's number, the commands run, and those commands' bytes read and written.
#[repr(C)]
#[derive(Clone, Copy)]
pub struct Ran {
    pub number: u64,
    pub commands: u64,
    pub read: u64,
    pub written: u64,
}

// Why a batch stops.
#[derive(Clone, Copy, Debug, PartialEq, Eq)]
pub enum Stop {
    InputEnded = 0,
    KindUnknown = 5,
    CommandCut = 6,
    OutputFull = 7,
}

// 01's number.
impl From<Stop> for u64 {
    ghost from_gives = { λ stop n. n ≡ stop_number stop };

    fn from(stop: Stop) -> u64 {
        stop as u64
    }
}

// A batch's turn: a command to run, and how many bytes it has.
#[derive(Clone, Copy)]
pub struct Turn {
    pub command: Command,
    pub bytes: usize,
}

// The turn at a place of the input (as `next_at` has it), with so many output bytes left: the stops in 01's order.
fn turn_at(input: &[u8], at: usize, room: usize) -> Result<Turn, Stop>
    ensures { result ≡ turn_at input.now at room }
{
    if input.len() <= at {
        return Err(Stop::InputEnded);
    }
    let n = records::body_length(input[at]).ok_or(Stop::KindUnknown)?;
    if input.len() - at - 1 < n {
        return Err(Stop::CommandCut);
    }
    if room < LONGEST_RECORD {
        return Err(Stop::OutputFull);
    }
    Ok(Turn {
        command: records::read_command(input, at),
        bytes: n + 1,
    })
}

// One command on a pool that is known to hold a bag: the record that answers it, or why it is refused.
fn perform(pool: &mut [u64], known: &mut Known, c: Command) -> Result<Record, Refusal>
    requires { Ready pool.old known.old }
    ensures { (s : Ready pool.old known.old) → Serves (on_bag c s.bag) (record_of result) known.new pool.new }
{
    match c {
        Command::Insert(i, x) => calls::insert(pool, known, i, x).map(|()| Record::Done),
        Command::Remove(i) => calls::remove(pool, known, i).map(Record::Element),
        Command::Push(x) => calls::push(pool, known, x).map(|()| Record::Done),
        Command::Get(i) => calls::get(pool, *known, i).map(|f| Record::Got(
            f.element,
            f.compared as u64,
        )),
        Command::Replace(i, x) => calls::replace(pool, *known, i, x).map(Record::Element),
        Command::Len => Ok(Record::Length(calls::len(pool, *known))),
    }
}

// The record of a command, a refused one's with the number.
fn serve(pool: &mut [u64], known: &mut Known, c: Command) -> Record
    requires { Ready pool.old known.old }
    ensures { (s : Ready pool.old known.old) → Serves (on_bag c s.bag) result known.new pool.new }
{
    match perform(pool, known, c) {
        Ok(record) => record,
        Err(why) => Record::Refusal(why.into()),
    }
}

// Runs the commands on a pool that is known to hold a bag, until one of 0, 5, 6 and 7 stops it: `read` and `written` go on by
// what a command takes and its answer has, and C's struct tells where they came to.
pub fn run(pool: &mut [u64], mut known: Known, input: &[u8], output: &mut [u8]) -> Ran
    requires { Ready pool.old known }
    ensures { (s : Ready pool.old known)
        → Runs (batch_of on_bag input.now (length output.old) s.bag) output.old result
        pool.new output.new }
{
    let mut commands = 0;
    let mut read = 0;
    let mut written = 0;
    loop {
        match turn_at(input, read, output.len() - written) {
            Ok(turn) => {
                let answer = serve(pool, &mut known, turn.command);
                written = records::write_record(output, written, answer);
                commands += 1;
                read += turn.bytes;
            }
            Err(stop) => {
                return Ran {
                    number: stop.into(),
                    commands,
                    read: read as u64,
                    written: written as u64,
                };
            }
        }
    }
}
