// What calls answer: the answers with the numbers that documents 01 and 02 give them, and their classes: which are refusals, and which
// of an ask or a report are written to the log.
#![tactic(auto)]

ghost use Rattle.std.specs.Prelude.{◌≡◌};
ghost use Rattle.answers.specs.Classes.{refusal_number, refused, refusal_written, step_written};
ghost use Rattle.answers.specs.Answers.{says};

#[derive(Clone, Copy, PartialEq, Eq)]
pub enum Refusal {
    Pending = 1,
    Idle = 2,
    Capacity = 3,
    NotReady = 4,
    Recovering = 5,
    BadArea = 6,
    Damaged = 7,
    TooMany = 9,
    Stale = 10,
    Worn = 11,
    LogFull = 12,
    NoStatus = 13,
    LongCandidate = 14,
    LongRecovery = 15,
    LongSnapshot = 16,
}

// Lengths and counts as they were, which a performed call gives back.
#[derive(Clone, Copy, PartialEq, Eq)]
pub enum Was {
    Nothing,
    One(usize),
    Three(usize, usize, usize),
}

// `item` of a ticket is the phase, or the action's number.
#[derive(Clone, Copy, PartialEq, Eq)]
pub enum Answer {
    Done(Was),
    Refused(Refusal),
    Ticket { number: u64, item: u32 },
    Waiting,
    Failed(u64),
    More,
    Finished,
}

impl Refusal {
    pub fn number(self) -> u64
        ensures { result ≡ refusal_number self }
    {
        self as u64
    }

    // Whether an ask that is refused so is written all the same.
    pub fn is_written(self) -> bool
        ensures { result ≡ refusal_written self }
    {
        matches!(self, Refusal::NotReady | Refusal::Recovering)
    }
}

impl Answer {
    // A match: only an enum whose cases carry nothing takes numbers beside them.
    pub fn number(self) -> u64
        ensures { result ≡ (says self).number }
    {
        match self {
            Answer::Done(_) => 0,
            Answer::Refused(why) => why.number(),
            Answer::Ticket { .. } => 20,
            Answer::Waiting => 21,
            Answer::Failed(_) => 22,
            Answer::More => 23,
            Answer::Finished => 24,
        }
    }

    // Whether nothing was done.
    pub fn is_refused(self) -> bool
        ensures { result ≡ refused (says self).class }
    {
        matches!(self, Answer::Refused(_))
    }

    // Whether an ask or a report with this answer is written.
    pub fn is_written(self) -> bool
        ensures { result ≡ step_written (says self).class }
    {
        match self {
            Answer::Done(_) => false,
            Answer::Refused(why) => why.is_written(),
            _ => true,
        }
    }
}
