// What a stamp that was asked for, and the check of one, answer as a row of numbers. No function asks anything of its caller.
// No `From`, as in `replies`.
#![tactic(auto)]

ghost use Rattle.std.specs.Prelude.{◌≡◌};
ghost use Rattle.step_stamps.specs.Stamping.{says_stamping, says_checked};
ghost use Rattle.replies.specs.Replies.{reply_of};

use answers::{Answer, Refusal, Was};
use replies::{Reply, of_answer};
use step_stamps::SaveStamp;

// A stamp that was asked for.
pub fn of_stamp(stamping: Result<SaveStamp, Refusal>) -> Reply
    ensures { result ≡ reply_of (says_stamping stamping) }
{
    match stamping {
        Ok(stamp) => {
            let number = Answer::Done(Was::Nothing).number();
            Reply {
                number,
                count: 4,
                first: stamp.domain,
                second: stamp.revision,
                third: stamp.replacements,
            }
        }
        Err(why) => of_answer(Answer::Refused(why)),
    }
}

// A check of a stamp: 1 where it passes, else 0.
pub fn of_check(checked: Result<bool, Refusal>) -> Reply
    ensures { result ≡ reply_of (says_checked checked) }
{
    match checked {
        Ok(true) => of_answer(Answer::Done(Was::One(1))),
        Ok(false) => of_answer(Answer::Done(Was::One(0))),
        Err(why) => of_answer(Answer::Refused(why)),
    }
}
