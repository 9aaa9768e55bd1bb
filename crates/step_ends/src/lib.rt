// Ending a transaction by a commit; and refresh, which replaces the accepted payload while nothing is staged.
#![tactic(auto)]

ghost use Rattle.std.specs.Prelude.{◌≡◌};
ghost use Rattle.record.specs.Answers.{tells};
ghost use Rattle.step_ends.specs.Ending.{commit_bars, refresh_bars, commit_step, refresh_step};
ghost use Rattle.bars.specs.Bars.{through};
ghost use Rattle.gates.specs.Gates.{gate_of};

use answers::{Answer, Refusal, Was};
use bars::bar;
use phases::Phase;
use record::{Findings, Opening, Record, Stepped};

// The refusals of a commit, in their order.
#[tactic(auto, using(bars::proofs::Passing::rows))]
fn commit_gate(r: Record, found: Findings) -> Result<(), Refusal>
    ensures { result ≡ through (gate_of found.sized found.sound r) (commit_bars r) }
{
    gates::admit(r, found)?;
    bar(!r.staged, Refusal::Idle)?;
    let p = r.phase.number;
    bar(
        !completeness::complete(r) | !((p == Phase::NONE) | (p == Phase::READY)),
        Refusal::NotReady,
    )
}

// The candidate becomes the accepted payload.
pub fn commit(r: Record, found: Findings) -> Stepped
    ensures { tells result ≡ commit_step found.sized found.sound r }
{
    if let Err(why) = commit_gate(r, found) {
        return r.refuse(why);
    }
    let was = Was::Three(r.accepted, r.recovery, r.entries as usize);
    let given = Opening {
        revision: r.revision + 1,
        serial: r.serial,
        replacements: r.replacements + 1,
    };
    given.opened(r.candidate).answering(Answer::Done(was))
}

// The refusals of a refresh, in their order.
#[tactic(auto, using(bars::proofs::Passing::rows))]
fn refresh_gate(r: Record, found: Findings, length: usize) -> Result<(), Refusal>
    ensures { result ≡ through (gate_of found.sized found.sound r) (refresh_bars r length) }
{
    gates::admit(r, found)?;
    bar(r.staged, Refusal::Pending)?;
    bar(r.replacements == record::MAX, Refusal::Capacity)?;
    gates::bar_snapshot(length)
}

// A snapshot of a length, in the exchange area, replaces the accepted payload; no revision is made.
pub fn refresh(r: Record, found: Findings, length: usize) -> Stepped
    ensures { tells result ≡ refresh_step found.sized found.sound r length }
{
    if let Err(why) = refresh_gate(r, found, length) {
        return r.refuse(why);
    }
    let replacements = r.replacements + 1;
    let fresh = Record {
        accepted: length,
        replacements,
        ..r
    };
    fresh.answering(Answer::Done(Was::One(r.accepted)))
}
