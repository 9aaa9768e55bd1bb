// Refusals in a row: those that every call begins with, and payloads that are too long.
#![tactic(auto)]

ghost use Rattle.std.specs.Prelude.{◌≡◌, [], Ok};
ghost use Rattle.bars.specs.Bars.{through};
ghost use Rattle.gates.specs.Gates.{gate_of, long_payloads, long_snapshot};

use answers::Refusal;
use bars::bar;
use record::{Findings, Record};

// The refusals that every call begins with, in their order. The record and what was found of all that is lent go together up to here
// alone, and are no struct: behind this gate a step goes on with the record.
pub fn admit(r: Record, found: Findings) -> Result<(), Refusal>
    ensures { result ≡ gate_of found.sized found.sound r }
{
    bar(!found.sized, Refusal::BadArea)?;
    bar(!(found.sound & wholeness::whole(r)), Refusal::Damaged)
}

// A candidate that is too long, and then a recovery payload that is.
#[tactic(auto, using(bars::proofs::Passing::rows), unfolding(areas::specs::Areas::long))]
pub fn bar_payloads(candidate: usize, recovery: usize) -> Result<(), Refusal>
    ensures { result ≡ through (Ok tt) (long_payloads candidate recovery []) }
{
    bar(areas::SIZE < candidate, Refusal::LongCandidate)?;
    bar(areas::SIZE < recovery, Refusal::LongRecovery)
}

// A snapshot that is too long.
#[tactic(auto, unfolding(areas::specs::Areas::long))]
pub fn bar_snapshot(length: usize) -> Result<(), Refusal>
    ensures { result ≡ through (Ok tt) (long_snapshot length []) }
{
    bar(areas::SIZE < length, Refusal::LongSnapshot)
}
