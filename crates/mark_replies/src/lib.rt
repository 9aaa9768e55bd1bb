// What a call of the status part answers as a row of numbers. No function asks anything of its caller.
// No `From`, as in `replies`.
#![tactic(auto)]

ghost use Rattle.std.specs.Prelude.{◌≡◌};
ghost use Rattle.status.specs.Status.{says_marked};
ghost use Rattle.replies.specs.Replies.{reply_of};

use answers::{Answer, Refusal, Was};
use replies::{Reply, of_answer};

// A call of the status part.
pub fn of_mark(marked: Result<(), Refusal>) -> Reply
    ensures { result ≡ reply_of (says_marked marked) }
{
    match marked {
        Ok(()) => of_answer(Answer::Done(Was::Nothing)),
        Err(why) => of_answer(Answer::Refused(why)),
    }
}
