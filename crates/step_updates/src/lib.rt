// The report of an action's update, as a step on the record alone: what became of the work that a ticket was given for. Unless
// refused, a report spends its ticket.
#![tactic(auto)]

ghost use Rattle.std.specs.Prelude.{◌≡◌, ◌≤◌};
ghost use Rattle.batch.specs.Batch.{limit};
ghost use Rattle.record.specs.Answers.{tells};
ghost use Rattle.step_updates.specs.Updates.{update_done, report_update_step};

use answers::Answer;
use record::{Findings, Record, Reporting, Stepped};
use reporting::{report_gate, reported};
use tickets::Live;

// One more action is applied.
fn update_done(mut r: Record) -> Stepped
    requires { r.applied ≤ limit }
    ensures { tells result ≡ update_done r }
{
    r.applied += 1;
    if r.applied == r.entries {
        return r.adopting().answering(Answer::Finished);
    }
    r.answering(Answer::More)
}

// A report of the update of the action number applied.
pub fn report_update(r: Record, found: Findings, given: Reporting) -> Stepped
    ensures { tells result ≡ report_update_step found.sized found.sound r given.ticket given.outcome }
{
    if let Err(why) = report_gate(r, found, Live::UPDATE, given) {
        return r.refuse(why);
    }
    let spent = r.with_ticket(r.serial, Live::None);
    reported(spent, given, update_done(spent))
}
