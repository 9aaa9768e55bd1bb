// The phases of a transaction: each has a number, fixed with the type, and some have a successor.
#![tactic(auto)]

ghost use Rattle.std.specs.Prelude.{◌≡◌};
ghost use Rattle.phases.specs.Phases.{from_number, has_successor, successor, boundary};

// A phase by its number: a struct, not an enum, since a record that comes from outside may hold any number (it is whole only with that
// of a phase), and document 01's list of forms wants the numbers as constants of the type. `from_number` tells the phases.
#[derive(Clone, Copy, PartialEq, Eq)]
pub struct Phase {
    pub number: u8,
}

impl Phase {
    pub const NONE: u8 = 0;

    pub const REMOVE: u8 = 1;

    pub const SETTLE_REMOVED: u8 = 2;

    pub const MOUNT: u8 = 3;

    pub const SETTLE_MOUNTED: u8 = 4;

    pub const UPDATES: u8 = 5;

    pub const ADOPT: u8 = 6;

    pub const READY: u8 = 7;

    pub const UNDO: u8 = 8;

    pub const RECOVER_REMOVE: u8 = 9;

    pub const RECOVER_SETTLE_REMOVED: u8 = 10;

    pub const RECOVER_MOUNT: u8 = 11;

    pub const RECOVER_SETTLE_MOUNTED: u8 = 12;

    pub const RECOVERED: u8 = 13;

    // The phase of a number, if it has one.
    pub fn from_number(number: u8) -> Option<Phase>
        ensures { result ≡ from_number number }
    {
        if number <= Phase::RECOVERED {
            Some(Phase { number })
        } else {
            None
        }
    }

    // Whether a Done report leads on from here.
    pub fn has_successor(self) -> bool
        ensures { result ≡ has_successor self.number }
    {
        matches!(
            self.number,
            Phase::REMOVE..=Phase::SETTLE_MOUNTED
                | Phase::ADOPT
                | Phase::RECOVER_REMOVE..=Phase::RECOVER_SETTLE_MOUNTED
        )
    }

    // The phase that a Done report leads to.
    pub fn successor(self) -> Option<Phase>
        ensures { result ≡ successor self.number }
    {
        if self.has_successor() {
            Some(Phase {
                number: self.number + 1,
            })
        } else {
            None
        }
    }

    // Whether structure work pauses here: the updates, the end of the way forward, or that of the way back.
    pub fn boundary(self) -> bool
        ensures { result ≡ boundary self.number }
    {
        matches!(
            self.number,
            Phase::UPDATES | Phase::READY | Phase::RECOVERED
        )
    }
}
