// What the driver holds: the record, an array for each area, the count of used tail records, how much of each is lent, and room for the
// payloads and the words that a line names. What a command does to it is told in the files beside this one.
use holdings::{Area, HELD_AREA, HELD_LOG, HELD_MARKS, HELD_TABLE, HELD_TAILS};
use record::{Opening, Record};
use tail_table::{MOST_RECORDS, WIDTH};
use transaction::{AREA, TABLE};

// How many bytes of the groups and of the status are lent at the start.
const MARKS: usize = 64;

// How many words of the tail table are: those of the most records that it has.
const TAILS: usize = MOST_RECORDS * WIDTH;

// How many elements of each area are lent.
#[derive(Clone, Copy)]
pub(crate) struct Lent {
    pub(crate) accepted: usize,
    pub(crate) candidate: usize,
    pub(crate) recovery: usize,
    pub(crate) exchange: usize,
    pub(crate) table: usize,
    pub(crate) log: usize,
    pub(crate) groups: usize,
    pub(crate) status: usize,
    pub(crate) tails: usize,
}

// The candidate and the recovery payload of a line, and its words.
#[derive(Drop)]
pub(crate) struct Scratch {
    pub(crate) candidate: [u8; HELD_AREA],
    pub(crate) recovery: [u8; HELD_AREA],
    pub(crate) pairs: [u64; HELD_TABLE],
}

#[derive(Drop)]
pub(crate) struct Held {
    pub(crate) record: Record,
    pub(crate) accepted: [u8; HELD_AREA],
    pub(crate) candidate: [u8; HELD_AREA],
    pub(crate) recovery: [u8; HELD_AREA],
    pub(crate) exchange: [u8; HELD_AREA],
    pub(crate) table: [u64; HELD_TABLE],
    pub(crate) log: [u64; HELD_LOG],
    pub(crate) groups: [u8; HELD_MARKS],
    pub(crate) status: [u8; HELD_MARKS],
    pub(crate) tails: [u64; HELD_TAILS],
    pub(crate) used: usize,
    pub(crate) lent: Lent,
    pub(crate) scratch: Scratch,
}

impl Lent {
    // At the start: areas and tables of the sizes that calls ask for, and no log.
    fn first() -> Lent {
        Lent {
            accepted: AREA,
            candidate: AREA,
            recovery: AREA,
            exchange: AREA,
            table: TABLE,
            log: 0,
            groups: MARKS,
            status: MARKS,
            tails: TAILS,
        }
    }

    // So many elements of an area from here on.
    pub(crate) fn set(&mut self, area: Area, count: usize) {
        match area {
            Area::Accepted => self.accepted = count,
            Area::Candidate => self.candidate = count,
            Area::Recovery => self.recovery = count,
            Area::Exchange => self.exchange = count,
            Area::Table => self.table = count,
            Area::Log => self.log = count,
            Area::Groups => self.groups = count,
            Area::Status => self.status = count,
            Area::Tails => self.tails = count,
        }
    }
}

impl Held {
    // Zeroes, and the record of an opening at 0, 0 with an empty payload.
    pub(crate) fn first() -> Held {
        Held {
            record: transaction::would_open(true, Opening::start(), 0).state,
            accepted: [0; HELD_AREA],
            candidate: [0; HELD_AREA],
            recovery: [0; HELD_AREA],
            exchange: [0; HELD_AREA],
            table: [0; HELD_TABLE],
            log: [0; HELD_LOG],
            groups: [0; HELD_MARKS],
            status: [0; HELD_MARKS],
            tails: [0; HELD_TAILS],
            used: 0,
            lent: Lent::first(),
            scratch: Scratch {
                candidate: [0; HELD_AREA],
                recovery: [0; HELD_AREA],
                pairs: [0; HELD_TABLE],
            },
        }
    }
}

// The first n elements, or all where there are fewer.
pub(crate) fn part<T>(items: &mut [T], n: usize) -> &mut [T] {
    if n < items.len() {
        return &mut items[..n];
    }
    items
}
