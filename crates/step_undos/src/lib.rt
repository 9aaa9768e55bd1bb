// The report of an action's undoing, as a step on the record alone: what became of the work that a ticket was given for. Unless
// refused, a report spends its ticket.
#![tactic(auto)]

ghost use Rattle.std.specs.Prelude.{◌≡◌, ◌<◌};
ghost use Rattle.record.specs.Answers.{tells};
ghost use Rattle.step_undos.specs.Undos.{leaving, rollback_done, report_rollback_step};

use answers::Answer;
use phases::Phase;
use record::{Findings, Record, Reporting, Stepped};
use reporting::{report_gate, reported};
use tickets::Live;

// Once every action is undone, phase 8 becomes 9.
fn leaving(mut r: Record) -> Record
    ensures { result ≡ leaving r }
{
    if r.phase.number == Phase::UNDO {
        r.phase.number = Phase::RECOVER_REMOVE;
    }
    r
}

// The last action is taken off.
fn rollback_done(mut r: Record) -> Stepped
    requires { (0 < r.entries) × (0 < r.attempted) }
    ensures { tells result ≡ rollback_done r }
{
    let left = r.entries - 1;
    r.entries = left;
    r.attempted -= 1;
    r.applied = r.applied.min(left);
    if left == 0 {
        return leaving(r).answering(Answer::Finished);
    }
    r.answering(Answer::More)
}

// A report of the undoing of the last action.
pub fn report_rollback(r: Record, found: Findings, given: Reporting) -> Stepped
    ensures { tells result ≡ report_rollback_step found.sized found.sound r given.ticket given.outcome }
{
    if let Err(why) = report_gate(r, found, Live::ROLLBACK, given) {
        return r.refuse(why);
    }
    let spent = r.with_ticket(r.serial, Live::None);
    reported(spent, given, rollback_done(spent))
}
