// The record of a transaction: what is kept between calls, by value; and what calls are given beside it, and answer.
#![tactic(auto)]

ghost use Rattle.std.specs.Prelude.{◌≡◌};
ghost use Rattle.record.specs.Fields.{with_ticket, adopting};
ghost use Rattle.answers.specs.Classes.{refused};
ghost use Rattle.record.specs.Answers.{answer, refuse, tells};
ghost use Rattle.record.specs.Given.{of_sizes, start, opening};

use answers::{Answer, Refusal};
use phases::Phase;
use tickets::Live;

// The largest u64: no revision is committed over it, no serial is given past it, and no settings are replaced past it.
pub const MAX: u64 = u64::MAX;

#[derive(Clone, Copy, PartialEq, Eq)]
pub struct Record {
    pub revision: u64,
    pub serial: u64,
    pub replacements: u64,
    pub accepted: usize,
    pub candidate: usize,
    pub recovery: usize,
    pub staged: bool,
    pub phase: Phase,
    pub forward: u8,
    pub back: u8,
    pub entries: u32,
    pub applied: u32,
    pub attempted: u32,
    pub restoring: bool,
    pub live: Live,
}

// What was found of all that a call is lent together: that every size is right, and that what is read in it is sound.
#[derive(Clone, Copy, PartialEq, Eq)]
pub struct Findings {
    pub sized: bool,
    pub sound: bool,
}

// What an opening is given besides its payload.
#[derive(Clone, Copy, PartialEq, Eq)]
pub struct Opening {
    pub revision: u64,
    pub serial: u64,
    pub replacements: u64,
}

// What a begin is given besides its flag: the lengths of both payloads, and the number of actions.
#[derive(Clone, Copy, PartialEq, Eq)]
pub struct Beginning {
    pub candidate: usize,
    pub recovery: usize,
    pub actions: usize,
}

// What became of the work that a ticket was given for.
#[derive(Clone, Copy, PartialEq, Eq)]
pub enum Outcome {
    Waiting,
    Failed(u64),
    Done,
}

// What a report is given besides what it stores: its ticket, and what became of the work.
#[derive(Clone, Copy, PartialEq, Eq)]
pub struct Reporting {
    pub ticket: u64,
    pub outcome: Outcome,
}

// What a call answers, and the record that it leaves.
#[derive(Clone, Copy, PartialEq, Eq)]
pub struct Stepped {
    pub answer: Answer,
    pub state: Record,
}

impl Findings {
    // Of sizes alone, where nothing that is lent is read.
    pub fn of(sized: bool) -> Findings
        ensures { result ≡ of_sizes sized }
    {
        Findings { sized, sound: true }
    }
}

impl Opening {
    // An opening at 0; its numbers stand here, since a derived Default would leave them to be guessed.
    pub fn start() -> Opening
        ensures { result ≡ start }
    {
        Opening {
            revision: 0,
            serial: 0,
            replacements: 0,
        }
    }

    // The idle record of an opening, with an accepted payload of a length.
    pub fn opened(self, accepted: usize) -> Record
        ensures { result ≡ opening self accepted }
    {
        Record {
            revision: self.revision,
            serial: self.serial,
            replacements: self.replacements,
            accepted,
            candidate: 0,
            recovery: 0,
            staged: false,
            phase: Phase {
                number: Phase::NONE,
            },
            forward: 0,
            back: 0,
            entries: 0,
            applied: 0,
            attempted: 0,
            restoring: false,
            live: Live::None,
        }
    }
}

impl Record {
    // The same record with another serial and live ticket.
    pub fn with_ticket(self, serial: u64, live: Live) -> Record
        ensures { result ≡ with_ticket serial live self }
    {
        Record {
            serial,
            live,
            ..self
        }
    }

    // Once every action is applied, phase 5 becomes 6.
    pub fn adopting(mut self) -> Record
        ensures { result ≡ adopting self }
    {
        if self.phase.number == Phase::UPDATES {
            self.phase.number = Phase::ADOPT;
        }
        self
    }

    // An answer, with this record after it.
    pub fn answering(self, given: Answer) -> Stepped
        ensures { tells result ≡ answer given self }
    {
        Stepped {
            answer: given,
            state: self,
        }
    }

    // A refusal returns the record equal.
    pub fn refuse(self, why: Refusal) -> Stepped
        ensures { tells result ≡ refuse why self }
    {
        self.answering(Answer::Refused(why))
    }
}

impl Stepped {
    // Whether nothing was done.
    pub fn is_refused(self) -> bool
        ensures { result ≡ refused (tells self).class }
    {
        self.answer.is_refused()
    }
}
