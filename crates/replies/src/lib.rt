// What a call of the transaction or of the recorder answers as a row of numbers: document 01's number of the answer, and the values that
// follow it. What a stamp, its check and a call of the status part answer stand in `stamp_replies` and `mark_replies`.
// No `From`: a reply is the programs' format, and no conversion of the type.
#![tactic(auto)]

ghost use Rattle.std.specs.Prelude.{◌≡◌, []};
ghost use Rattle.answers.specs.Answers.{says};
ghost use Rattle.answers.specs.declared.Answer.TheVariants.{Done, Refused};
ghost use Rattle.replies.specs.Replies.{row_of, reply, reply_of};

use answers::{Answer, Refusal, Was};

// The number of an answer and its values, `count` numbers in all; those after them are zeros. No answer has more than three values;
// they are fields, not an array, since the kinds of replies name them one by one.
#[derive(Clone, Copy)]
pub struct Reply {
    pub number: u64,
    pub count: usize,
    pub first: u64,
    pub second: u64,
    pub third: u64,
}

fn row(number: u64, count: usize, first: u64, second: u64, third: u64) -> Reply
    ensures { result ≡ row_of number count first second third }
{
    Reply {
        number,
        count,
        first,
        second,
        third,
    }
}

// A number without values.
fn bare(number: u64) -> Reply
    ensures { result ≡ reply number [] }
{
    row(number, 1, 0, 0, 0)
}

fn of_done(was: Was) -> Reply
    ensures { result ≡ reply_of (says (Done was)) }
{
    let number = Answer::Done(was).number();
    match was {
        Was::Nothing => bare(number),
        Was::One(a) => row(number, 2, a as u64, 0, 0),
        Was::Three(a, b, c) => row(number, 4, a as u64, b as u64, c as u64),
    }
}

fn of_refusal(why: Refusal) -> Reply
    ensures { result ≡ reply_of (says (Refused why)) }
{
    bare(why.number())
}

// A call of the transaction or of the recorder.
pub fn of_answer(answer: Answer) -> Reply
    ensures { result ≡ reply_of (says answer) }
{
    let number = answer.number();
    match answer {
        Answer::Done(was) => of_done(was),
        Answer::Ticket {
            number: ticket,
            item,
        } => row(number, 3, ticket, item as u64, 0),
        Answer::Failed(code) => row(number, 2, code, 0, 0),
        Answer::Refused(why) => of_refusal(why),
        Answer::Waiting => bare(number),
        Answer::More => bare(number),
        Answer::Finished => bare(number),
    }
}
