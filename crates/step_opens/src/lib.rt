// Opening, as a step on the record alone: the first record of a chain. Its payload is known by its length.
#![tactic(auto)]

ghost use Rattle.std.specs.Prelude.{◌≡◌, Ok};
ghost use Rattle.record.specs.Answers.{tells};
ghost use Rattle.bars.specs.Bars.{through};
ghost use Rattle.step_opens.specs.Opening.{unopened, open_bars, open_step};

use answers::{Answer, Refusal, Was};
use bars::bar;
use record::{Opening, Record, Stepped};

// The record that a refused opening returns: that of an opening at 0, 0 with an empty payload.
fn unopened() -> Record
    ensures { result ≡ unopened }
{
    Opening::start().opened(0)
}

// The refusals of an opening, in their order.
#[tactic(auto, using(bars::proofs::Passing::rows))]
fn open_gate(sized: bool, accepted: usize) -> Result<(), Refusal>
    ensures { result ≡ through (Ok tt) (open_bars sized accepted) }
{
    bar(!sized, Refusal::BadArea)?;
    gates::bar_snapshot(accepted)
}

pub fn open(sized: bool, given: Opening, accepted: usize) -> Stepped
    ensures { tells result ≡ open_step sized given accepted }
{
    if let Err(why) = open_gate(sized, accepted) {
        return unopened().refuse(why);
    }
    given.opened(accepted).answering(Answer::Done(Was::Nothing))
}
