// What the three reports share, as steps on the record alone: the refusals that each begins with, and a report that is taken, for
// which the caller has spent the ticket and stored the payloads.
#![tactic(auto)]

ghost use Rattle.std.specs.Prelude.{◌≡◌, []};
ghost use Rattle.record.specs.Answers.{tells};
ghost use Rattle.record.specs.Given.{effect_of};
ghost use Rattle.reporting.specs.Reporting.{stale, reported};
ghost use Rattle.bars.specs.Bars.{through};
ghost use Rattle.gates.specs.Gates.{gate_of};

use answers::{Answer, Refusal};
use bars::bar;
use record::{Findings, Outcome, Record, Reporting, Stepped};

// The refusals that every call begins with, and then a ticket that is not the live one of its kind.
#[tactic(auto, using(bars::proofs::Passing::rows))]
pub fn report_gate(r: Record, found: Findings, work: u8, given: Reporting) -> Result<(), Refusal>
    ensures { result ≡ through (gate_of found.sized found.sound r) (stale work given.ticket r []) }
{
    gates::admit(r, found)?;
    let live = r.live;
    bar(!live.is(work, given.ticket), Refusal::Stale)
}

// A report that is taken: Waiting and Failed do nothing else, and Done is what it would do.
pub fn reported(r: Record, given: Reporting, done: Stepped) -> Stepped
    ensures { tells result ≡ reported (effect_of given.outcome) r (tells done) }
{
    match given.outcome {
        Outcome::Waiting => r.answering(Answer::Waiting),
        Outcome::Failed(code) => r.answering(Answer::Failed(code)),
        Outcome::Done => done,
    }
}
