// The batch: commands in bytes, run one after the other on any words at all, which are checked once.
#![tactic(auto)]

ghost use Rattle.batch.specs.Batch.{Batches};

use commands::Ran;

// Runs commands until the input ends, or one is unknown, cut short, or has no room for its answer. The number is told in C's struct.
pub fn batch(pool: &mut [u64], input: &[u8], output: &mut [u8]) -> Ran
    ensures { Batches pool.old input.now output.old result pool.new output.new }
{
    match admission::admit(pool) {
        Ok(known) => commands::run(pool, known, input, output),
        Err(why) => Ran {
            number: why.into(),
            commands: 0,
            read: 0,
            written: 0,
        },
    }
}
