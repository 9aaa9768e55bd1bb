// The commands of a script, with what each is given, and which of them a key and its numbers make. Nothing here reads a line.
#![tactic(auto)]

mod making;

use holdings::Area;
pub use making::of_key;
use record::{Opening, Record, Reporting};
use seeds::Seeded;
use step_stamps::SaveStamp;
use tail_table::{File, Tail};

#[derive(Clone, Copy)]
pub enum Command {
    // an empty line or a comment
    Nothing,
    // a line that is no command: a case, and no `Option` or `Result` about the others, since each is told in its own way
    Bad,
    Show,
    // what is lent of an area from here on, one element, a payload in the exchange area, the record, the count of used tail records:
    // they are not answered
    Lend { area: Area, count: usize },
    Put { area: Area, at: usize, value: u64 },
    Fill(Seeded),
    Record(Record),
    Tails(usize),
    Open { opening: Opening, payload: Seeded },
    Bring { payloads: Payloads, call: Bringing },
    Work(Working),
    End(Ending),
    Plan(Planning),
    Mark(Marking),
    Tail(Tailing),
}

// The candidate payload and the recovery payload.
#[derive(Clone, Copy)]
pub struct Payloads {
    pub candidate: Seeded,
    pub recovery: Seeded,
}

// Calls that bring both payloads; the pairs of a begin are its actions.
#[derive(Clone, Copy)]
pub enum Bringing {
    Begin { structural: bool, pairs: Seeded },
    Edit,
    ReportStructure(Reporting),
}

// Asking for tickets, and the reports that bring no payload of bytes: of an update, or of undoing one.
#[derive(Clone, Copy)]
pub enum Working {
    Ask(Asking),
    Report {
        undoing: bool,
        given: Reporting,
        payload: u64,
    },
}

// What a ticket is asked for.
#[derive(Clone, Copy)]
pub enum Asking {
    Structure,
    Update,
    Rollback,
}

// Calls that exchange areas. A recovery and a refresh have the length of the snapshot that they take from the exchange area.
#[derive(Clone, Copy)]
pub enum Ending {
    Commit,
    RecoverRetained,
    Snapshot { refreshing: bool, length: usize },
}

// A stamp for a domain, and whether one passes.
#[derive(Clone, Copy)]
pub enum Planning {
    Stamp(u64),
    Check { domain: u64, stamp: SaveStamp },
}

// Calls of the status part.
#[derive(Clone, Copy)]
pub enum Marking {
    Link { id: u64, domain: bool },
    Initialize(u64),
    Cancel(u64),
}

// Calls of the tail table. Finding and moving are given a stamp and the domain that it is checked against, and are made on flat words or
// on structs.
#[derive(Clone, Copy)]
pub enum Tailing {
    Add(Tail),
    Remove(File),
    Find {
        structs: bool,
        file: File,
        size: u64,
        domain: u64,
        stamp: SaveStamp,
    },
    Move {
        structs: bool,
        tail: Tail,
        domain: u64,
        stamp: SaveStamp,
    },
}
