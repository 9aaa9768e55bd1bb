// The ask for a rollback, as a step on the record alone: the way back is taken, and a ticket is given for what is left to undo.
#![tactic(auto)]

ghost use Rattle.std.specs.Prelude.{◌≡◌};
ghost use Rattle.record.specs.Answers.{tells};
ghost use Rattle.step_rollbacks.specs.Rollbacks.{ask_rollback_step, turned};

use answers::{Answer, Refusal};
use issuing::issue;
use phases::Phase;
use record::{Findings, Record, Stepped};
use tickets::Live;

// The way back: only the actions that were attempted stay entries, and a phase 1 to 7 becomes `to`.
fn turned(r: Record, to: u8) -> Record
    ensures { result ≡ turned to r }
{
    let mut back = r;
    back.restoring = true;
    back.entries = r.attempted;
    if (Phase::REMOVE <= r.phase.number) & (r.phase.number <= Phase::READY) {
        back.phase.number = to;
    }
    back
}

// A ticket to undo the last action that was attempted.
pub fn ask_rollback(r: Record, found: Findings) -> Stepped
    ensures { tells result ≡ ask_rollback_step found.sized found.sound r }
{
    if let Err(why) = gates::admit(r, found) {
        return r.refuse(why);
    }
    if Phase::RECOVER_REMOVE <= r.phase.number {
        return r.answering(Answer::Finished);
    }
    if (0 < r.attempted) & (r.serial == record::MAX) {
        return r.refuse(Refusal::Worn);
    }
    if r.attempted == 0 {
        return turned(r, Phase::RECOVER_REMOVE)
            .with_ticket(r.serial, Live::None)
            .answering(Answer::Finished);
    }
    let number = r.serial + 1;
    let back = turned(r, Phase::UNDO);
    issue(back, Live::Rollback(number), r.attempted - 1)
}
