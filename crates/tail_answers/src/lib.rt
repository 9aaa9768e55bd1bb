// What the calls of the tail table answer, with the numbers that document 02 gives them. Adding, removing and moving say nothing where
// they are done.
#![tactic(auto)]

ghost use Rattle.std.specs.Prelude.{◌≡◌};
ghost use Rattle.tail_answers.specs.TailAnswers.{tail_number};

use answers::Refusal;

#[derive(Clone, Copy)]
pub enum TailRefusal {
    BadArea,
    Damaged,
    Full,
    Present,
    Backward,
    Absent,
    Unstamped,
}

// What finding answers: the saved offset of a file that may be the same, or that it is not.
#[derive(Clone, Copy)]
pub enum Finding {
    Same(u64),
    Shrunk,
    Unknown,
}

impl TailRefusal {
    // A match, not the numbers of the cases: two of them are those that `answers` gives.
    pub fn number(self) -> u64
        ensures { result ≡ tail_number self }
    {
        match self {
            TailRefusal::BadArea => Refusal::BadArea.number(),
            TailRefusal::Damaged => Refusal::Damaged.number(),
            TailRefusal::Full => 31,
            TailRefusal::Present => 32,
            TailRefusal::Backward => 33,
            TailRefusal::Absent => 34,
            TailRefusal::Unstamped => 35,
        }
    }
}
