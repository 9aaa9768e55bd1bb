// What a call of the tail table answers as a row of numbers. No function asks anything of its caller.
// No `From`, as in `replies`.
#![tactic(auto)]

ghost use Rattle.std.specs.Prelude.{◌≡◌};
ghost use Rattle.replies.specs.Replies.{row_of};
ghost use Rattle.tail_answers.specs.TailAnswers.{says_verdict, says_finding};
ghost use Rattle.tail_replies.specs.TailReplies.{tail_reply};

use replies::Reply;
use tail_answers::{Finding, TailRefusal};

// The number of a call that is not refused.
const DONE: u64 = 0;

// What finding tells of a file, before the offset where there is one: numbers, as the driver writes them, and no names.
const SAME: u64 = 0;

const SHRUNK: u64 = 1;

const UNKNOWN: u64 = 2;

fn row(number: u64, count: usize, first: u64, second: u64) -> Reply
    ensures { result ≡ row_of number count first second 0 }
{
    Reply {
        number,
        count,
        first,
        second,
        third: 0,
    }
}

// Adding, removing and moving.
pub fn of_verdict(verdict: Result<(), TailRefusal>) -> Reply
    ensures { result ≡ tail_reply (says_verdict verdict) }
{
    match verdict {
        Ok(()) => row(DONE, 1, 0, 0),
        Err(why) => row(why.number(), 1, 0, 0),
    }
}

// Finding.
pub fn of_finding(finding: Result<Finding, TailRefusal>) -> Reply
    ensures { result ≡ tail_reply (says_finding finding) }
{
    match finding {
        Ok(Finding::Same(offset)) => row(DONE, 3, SAME, offset),
        Ok(Finding::Shrunk) => row(DONE, 2, SHRUNK, 0),
        Ok(Finding::Unknown) => row(DONE, 2, UNKNOWN, 0),
        Err(why) => of_verdict(Err(why)),
    }
}
