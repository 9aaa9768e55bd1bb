// Giving a ticket, which every ask does that has work: a step on the record alone, behind the refusals of that ask.
#![tactic(auto)]

ghost use Rattle.std.specs.Prelude.{◌≡◌};
ghost use Rattle.record.specs.Answers.{tells};
ghost use Rattle.issuing.specs.Issuing.{issued};

use answers::Answer;
use record::{Record, Stepped};
use tickets::Live;

// The ticket that is given is live, and the serial is its number. It carries the phase, or the action's number.
pub fn issue(r: Record, live: Live, item: u32) -> Stepped
    ensures { tells result ≡ issued live item r }
{
    let number = live.number();
    r.with_ticket(number, live)
        .answering(Answer::Ticket { number, item })
}
