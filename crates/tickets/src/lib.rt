// The live ticket: the work that it is for, and its number, and whether they are the ones that are given.
#![tactic(auto)]

ghost use Rattle.std.specs.Prelude.{◌≡◌};
ghost use Rattle.tickets.specs.Live.{work_of, number, is_live};

// Which kind of ticket is live, with its number.
#[derive(Clone, Copy, PartialEq, Eq)]
pub enum Live {
    None,
    Structure(u64),
    Update(u64),
    Rollback(u64),
}

impl Live {
    pub const NONE: u8 = 0;

    pub const STRUCTURE: u8 = 1;

    pub const UPDATE: u8 = 2;

    pub const ROLLBACK: u8 = 3;

    // The work that it is for, as a number: a record as a row of numbers has it, and the programs print it.
    pub fn work(self) -> u8
        ensures { result ≡ work_of self }
    {
        match self {
            Live::None => Live::NONE,
            Live::Structure(_) => Live::STRUCTURE,
            Live::Update(_) => Live::UPDATE,
            Live::Rollback(_) => Live::ROLLBACK,
        }
    }

    // The ticket's number, 0 where none is live.
    pub fn number(self) -> u64
        ensures { result ≡ number self }
    {
        match self {
            Live::None => 0,
            Live::Structure(n) | Live::Update(n) | Live::Rollback(n) => n,
        }
    }

    // Of the works 1 to 3, whether the ticket is the live one for it. Of the work 0, whether none is live and the ticket is 0.
    // Not `==` with a ticket: the work is a number, and every number has an answer here.
    pub fn is(self, of: u8, ticket: u64) -> bool
        ensures { result ≡ is_live of ticket self }
    {
        (self.work() == of) & (self.number() == ticket)
    }
}
