// The asks for structure work and for an update, as steps on the record alone: whether work is due, and a ticket for it. Asking counts as
// starting.
#![tactic(auto)]

ghost use Rattle.std.specs.Prelude.{◌≡◌};
ghost use Rattle.record.specs.Answers.{tells};
ghost use Rattle.bars.specs.Bars.{through};
ghost use Rattle.gates.specs.Gates.{gate_of};
ghost use Rattle.step_asks.specs.Asks.{ask_structure_bars, ask_update_bars, ask_structure_step, ask_update_step};

use answers::{Answer, Refusal};
use bars::bar;
use issuing::issue;
use phases::Phase;
use record::{Findings, Record, Stepped};
use tickets::Live;

// The refusals of an asking for structure work, in their order; the last, a serial at its maximum, comes behind Finished.
#[tactic(auto, using(bars::proofs::Passing::rows))]
fn ask_structure_gate(r: Record, found: Findings) -> Result<(), Refusal>
    ensures { result ≡ through (gate_of found.sized found.sound r) (ask_structure_bars r) }
{
    gates::admit(r, found)?;
    let p = r.phase.number;
    bar(
        (p == Phase::NONE) | (p == Phase::UPDATES) | (p == Phase::UNDO),
        Refusal::NotReady,
    )
}

// A ticket for the structure work of the phase.
pub fn ask_structure(r: Record, found: Findings) -> Stepped
    ensures { tells result ≡ ask_structure_step found.sized found.sound r }
{
    if let Err(why) = ask_structure_gate(r, found) {
        return r.refuse(why);
    }
    let p = r.phase.number;
    if (p == Phase::READY) | (p == Phase::RECOVERED) {
        return r.answering(Answer::Finished);
    }
    if r.serial == record::MAX {
        return r.refuse(Refusal::Worn);
    }
    issue(r, Live::Structure(r.serial + 1), p as u32)
}

// The refusals of an asking for an update, likewise.
#[tactic(auto, using(bars::proofs::Passing::rows))]
fn ask_update_gate(r: Record, found: Findings) -> Result<(), Refusal>
    ensures { result ≡ through (gate_of found.sized found.sound r) (ask_update_bars r) }
{
    gates::admit(r, found)?;
    let p = r.phase.number;
    bar(
        !((p == Phase::NONE) | (p == Phase::UPDATES)) | r.restoring,
        Refusal::Recovering,
    )
}

// A ticket for the next action.
pub fn ask_update(r: Record, found: Findings) -> Stepped
    ensures { tells result ≡ ask_update_step found.sized found.sound r }
{
    if let Err(why) = ask_update_gate(r, found) {
        return r.refuse(why);
    }
    if r.applied == r.entries {
        return r.adopting().answering(Answer::Finished);
    }
    if r.serial == record::MAX {
        return r.refuse(Refusal::Worn);
    }
    let started = Record {
        attempted: r.applied + 1,
        ..r
    };
    issue(started, Live::Update(r.serial + 1), r.applied)
}
