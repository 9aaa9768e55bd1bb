// Ending a transaction by a recovery: from a snapshot, or from the retained recovery payload.
#![tactic(auto)]

ghost use Rattle.std.specs.Prelude.{[], ◌≡◌, ◌<◌};
ghost use Rattle.record.specs.Fields.{top};
ghost use Rattle.record.specs.Answers.{tells};
ghost use Rattle.step_recoveries.specs.Recovering.{unrestored, recovered_to, recover_bars, recover_step, recover_retained_step};
ghost use Rattle.bars.specs.Bars.{through};
ghost use Rattle.gates.specs.Gates.{gate_of, long_snapshot};

use answers::{Answer, Refusal, Was};
use bars::bar;
use phases::Phase;
use record::{Findings, Opening, Record, Stepped};

// Whether a recovery comes too early: entries are left to undo, or the way back is not at its end.
fn unrestored(r: Record) -> bool
    ensures { result ≡ unrestored r }
{
    (0 < r.entries) | !((r.phase.number == Phase::NONE) | (r.phase.number == Phase::RECOVERED))
}

// The refusals of both recoveries, in their order.
#[tactic(auto, using(bars::proofs::Passing::rows))]
fn recover_gate(r: Record, found: Findings) -> Result<(), Refusal>
    ensures { result ≡ through (gate_of found.sized found.sound r) (recover_bars r []) }
{
    gates::admit(r, found)?;
    bar(!r.staged, Refusal::Idle)?;
    bar(unrestored(r), Refusal::NotReady)
}

// A snapshot's length is asked last.
#[tactic(auto, using(bars::proofs::Passing::rows))]
fn snapshot_gate(r: Record, found: Findings, length: usize) -> Result<(), Refusal>
    ensures { result ≡ through (gate_of found.sized found.sound r) (recover_bars r (long_snapshot length [])) }
{
    recover_gate(r, found)?;
    gates::bar_snapshot(length)
}

// What both recoveries do behind their gates: a payload of a length becomes the accepted one. Behind them the count has room.
fn recovered(r: Record, accepted: usize) -> Stepped
    requires { r.replacements < top }
    ensures { tells result ≡ recovered_to accepted r }
{
    let was = Was::Three(r.accepted, r.candidate, r.recovery);
    let given = Opening {
        revision: r.revision,
        serial: r.serial,
        replacements: r.replacements + 1,
    };
    given.opened(accepted).answering(Answer::Done(was))
}

// A snapshot of a length, in the exchange area, becomes the accepted payload.
pub fn recover(r: Record, found: Findings, length: usize) -> Stepped
    ensures { tells result ≡ recover_step found.sized found.sound r length }
{
    if let Err(why) = snapshot_gate(r, found, length) {
        return r.refuse(why);
    }
    recovered(r, length)
}

// The retained recovery payload becomes the accepted one.
pub fn recover_retained(r: Record, found: Findings) -> Stepped
    ensures { tells result ≡ recover_retained_step found.sized found.sound r }
{
    if let Err(why) = recover_gate(r, found) {
        return r.refuse(why);
    }
    recovered(r, r.recovery)
}
