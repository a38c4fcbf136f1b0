// A pool is admitted, whatever its words: it is checked in full, and refused or known to hold a bag.
#![tactic(auto)]

ghost use Rattle.admission.specs.Promise.{Admits};

use model::Refusal;
use tree::Known;

// Checks the pool in full, and gives what is known of its bag.
pub fn admit(pool: &[u64]) -> Result<Known, Refusal>
    ensures { Admits pool.now result }
{
    let c = sound::check(pool)?;
    Ok(calls::known_of(pool, c.levels, c.free))
}
