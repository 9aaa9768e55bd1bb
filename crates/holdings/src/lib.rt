// What whoever runs a script holds, its areas with their sizes: more than any call asks for, so that a script can lend too much. No
// function asks anything of its caller.
#![tactic(auto)]

ghost use Rattle.std.specs.Prelude.{◌≡◌};
ghost use Rattle.holdings.specs.Held.{area_at, held_of, most_of};

use rows::TOP8;

// How many bytes of each of the four areas, words of the table and of the log, bytes of the groups and of the status, and words of the
// tail table are held.
pub const HELD_AREA: usize = 5000;

pub const HELD_TABLE: usize = 2200;

pub const HELD_LOG: usize = 5000;

pub const HELD_MARKS: usize = 300;

pub const HELD_TAILS: usize = 800;

#[derive(Clone, Copy, PartialEq, Eq)]
pub enum Area {
    Accepted,
    Candidate,
    Recovery,
    Exchange,
    Table,
    Log,
    Groups,
    Status,
    Tails,
}

impl Area {
    // The area whose letter stands at this place in `acrxtlgsf`. A number, not a byte: a line gives its numbers in a row, of any kind.
    pub fn at(place: u64) -> Area
        ensures { result ≡ area_at place }
    {
        match place {
            0 => Area::Accepted,
            1 => Area::Candidate,
            2 => Area::Recovery,
            3 => Area::Exchange,
            4 => Area::Table,
            5 => Area::Log,
            6 => Area::Groups,
            7 => Area::Status,
            _ => Area::Tails,
        }
    }

    // How many elements are held of it.
    pub fn held(self) -> usize
        ensures { result ≡ held_of self }
    {
        match self {
            Area::Accepted | Area::Candidate | Area::Recovery | Area::Exchange => HELD_AREA,
            Area::Table => HELD_TABLE,
            Area::Log => HELD_LOG,
            Area::Groups | Area::Status => HELD_MARKS,
            Area::Tails => HELD_TAILS,
        }
    }

    // The largest number that an element of it takes.
    pub fn most(self) -> u64
        ensures { result ≡ most_of self }
    {
        match self {
            Area::Table | Area::Log | Area::Tails => u64::MAX,
            _ => TOP8,
        }
    }
}
