// What the engine finds out of what was taken: the five answers, and what they rest on.
ghost use Rattle.std.specs.Prelude.{◌≡◌};
ghost use Rattle.plans.specs.Counts.{lead};
ghost use Rattle.plain.specs.Plain.{is_done, is_back, is_updated, is_over, is_left, forward_phase, back_phase, phase_of, commit_allowed, recovery_allowed, is_settling, is_updating, due_asking, answer_to};
ghost use Rattle.plain.specs.Within.{Small};

use super::{Question, Taken};
use phases::Phase;
use tickets::Live;

// The Done reports of a structural transaction before its updates, after them, and after the undos.
const LEAD: u64 = 4;

const LAST: u64 = 1;

const BACK: u64 = 4;

// The Done reports before the updates.
pub(crate) fn lead(structural: bool) -> u64
    ensures { result ≡ lead structural }
{
    if structural { LEAD } else { 0 }
}

impl Taken {
    // Whether every update is reported Done.
    pub(crate) fn is_updated(self) -> bool
        requires { Small self }
        ensures { result ≡ is_updated self }
    {
        lead(self.structural) + self.size <= self.done
    }

    // Whether all Done reports forward are taken.
    fn is_done(self) -> bool
        requires { Small self }
        ensures { result ≡ is_done self }
    {
        if self.structural {
            self.done == LEAD + LAST + self.size
        } else {
            self.done == self.size
        }
    }

    // Whether all Done reports back are taken.
    fn is_back(self) -> bool
        requires { Small self }
        ensures { result ≡ is_back self }
    {
        if self.structural {
            self.undone == self.started + BACK
        } else {
            self.undone == self.started
        }
    }

    // Whether the updates are over.
    fn is_over(self) -> bool
        requires { Small self }
        ensures { result ≡ is_over self }
    {
        self.is_updated() & (self.closed | (0 < self.size))
    }

    // Whether an update that was started is not undone.
    pub(crate) fn is_left(self) -> bool
        ensures { result ≡ is_left self }
    {
        self.undone < self.started
    }

    fn forward_phase(self) -> u64
        requires { Small self }
        ensures { result ≡ forward_phase self }
    {
        if self.done < LEAD {
            return Phase::REMOVE as u64 + self.done;
        }
        if self.is_over() {
            if self.is_done() {
                return Phase::READY as u64;
            }
            return Phase::ADOPT as u64;
        }
        Phase::UPDATES as u64
    }

    fn back_phase(self) -> u64
        requires { Small self }
        ensures { result ≡ back_phase self }
    {
        if self.undone < self.started {
            return Phase::UNDO as u64;
        }
        Phase::RECOVER_REMOVE as u64 + (self.undone - self.started)
    }

    fn phase(self) -> u64
        requires { Small self }
        ensures { result ≡ phase_of self }
    {
        if self.structural {
            if self.turned {
                return self.back_phase();
            }
            return self.forward_phase();
        }
        Phase::NONE as u64
    }

    pub(crate) fn commit_allowed(self) -> bool
        requires { Small self }
        ensures { result ≡ commit_allowed self }
    {
        self.running & !self.turned & self.is_done()
    }

    pub(crate) fn recovery_allowed(self) -> bool
        requires { Small self }
        ensures { result ≡ recovery_allowed self }
    {
        if self.turned {
            return self.running & self.is_back();
        }
        self.running & (!self.structural & (self.size == 0))
    }

    // Whether structure work is to be done.
    pub(crate) fn is_settling(self) -> bool
        requires { Small self }
        ensures { result ≡ is_settling self }
    {
        if self.turned {
            return self.structural & (!self.is_left() & !self.is_back());
        }
        self.structural & ((self.done < LEAD) | (self.is_over() & !self.is_done()))
    }

    // Whether updates may be asked for.
    pub(crate) fn is_updating(self) -> bool
        requires { Small self }
        ensures { result ≡ is_updating self }
    {
        !self.turned & (!self.structural | ((LEAD <= self.done) & !self.is_over()))
    }

    // A number of `Live`'s: the answer to a question is one.
    fn due_asking(self) -> u8
        requires { Small self }
        ensures { result ≡ due_asking self }
    {
        if self.is_settling() {
            return Live::STRUCTURE;
        }
        if self.is_updating() & (self.structural | !self.is_updated()) {
            return Live::UPDATE;
        }
        if self.turned & self.is_left() {
            return Live::ROLLBACK;
        }
        Live::NONE
    }

    // The answer to a question.
    pub(crate) fn answer(self, question: Question) -> u64
        requires { Small self }
        ensures { result ≡ answer_to question self }
    {
        match question {
            Question::Phase => self.phase(),
            Question::CommitAllowed => self.commit_allowed() as u64,
            Question::RecoveryAllowed => self.recovery_allowed() as u64,
            Question::DueAsking => self.due_asking() as u64,
            Question::Revision => self.revision,
        }
    }
}
