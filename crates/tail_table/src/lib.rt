// The tail table: its records, and what all calls on it do alike, whether it is lent as flat words or as structs: they look at each used
// record once, and decide by what they saw. `tails` has the calls on flat words, `tail_structs` those on structs.
#![tactic(auto)]

ghost use Rattle.std.specs.Prelude.{◌≡◌, []};
ghost use Rattle.bars.specs.Bars.{verdict};
ghost use Rattle.tail_table.specs.Table.{file_of, same, before};
ghost use Rattle.tail_table.specs.Sweeping.{room_of, room_for, reach_of, swept, past, stepped, by_table, by_stamp, find_by, add_by, remove_by, move_by};

use bars::bar;
use record::Record;
use step_stamps::SaveStamp;
use tail_answers::{Finding, TailRefusal};

// The words of a record, and the most records of a table.
pub const WIDTH: usize = 3;

pub const MOST_RECORDS: usize = 256;

// A record: how far a file was read.
#[derive(Clone, Copy)]
pub struct Tail {
    pub device: u64,
    pub inode: u64,
    pub offset: u64,
}

// A record that is not in use.
pub const NO_RECORD: Tail = Tail {
    device: 0,
    inode: 0,
    offset: 0,
};

// The pair by which a file is known; in a table files stand by device, then by inode.
#[derive(Clone, Copy, PartialEq, Eq, PartialOrd, Ord)]
pub struct File {
    pub device: u64,
    pub inode: u64,
}

// A stamp, with the record and the domain that it must still agree with.
#[derive(Clone, Copy)]
pub struct Claim {
    pub record: Record,
    pub domain: u64,
    pub stamp: SaveStamp,
}

// What is lent as a table: whether its size is one, and how many records it has room for.
#[derive(Clone, Copy)]
pub struct Room {
    pub sized: bool,
    pub records: usize,
}

// What the records so far have shown of the file that is looked for.
#[derive(Clone, Copy)]
pub struct Sweep {
    pub file: File,
    // how many there were, and the last one's file
    pub count: usize,
    pub last: File,
    pub ordered: bool,
    // whether the file stands among them, at which place first, and its saved offset there: three fields and no Option, since each is
    // its own definition's value of the records (`stands`, `spot_of`, `saved_of`), of which the laws of tail_laws speak
    pub met: bool,
    pub place: usize,
    pub offset: u64,
}

impl Tail {
    pub fn file(self) -> File
        ensures { result ≡ file_of self }
    {
        File {
            device: self.device,
            inode: self.inode,
        }
    }
}

impl File {
    pub fn is(self, other: File) -> bool
        ensures { result ≡ same self other }
    {
        (self.device == other.device) & (self.inode == other.inode)
    }

    // By device, then by inode: what the derived `<` computes, with no branch, by which a sweep is quicker.
    pub fn before(self, other: File) -> bool
        ensures { result ≡ before self other }
    {
        (self.device < other.device) | ((self.device == other.device) & (self.inode < other.inode))
    }
}

impl Room {
    // Two constructors: words can be left over behind the last record, and structs can't.
    pub fn of_words(n: usize) -> Room
        ensures { result ≡ room_of n }
    {
        Room {
            sized: !((n % WIDTH != 0) | (MOST_RECORDS * WIDTH < n)),
            records: n / WIDTH,
        }
    }

    pub fn of_records(n: usize) -> Room
        ensures { result ≡ room_for n }
    {
        Room {
            sized: n <= MOST_RECORDS,
            records: n,
        }
    }

    // How many records are looked at: none where the count does not fit.
    pub fn reach(self, used: usize) -> usize
        ensures { result ≡ reach_of self used }
    {
        if self.sized & (used <= self.records) {
            used
        } else {
            0
        }
    }
}

impl Sweep {
    // Before the first record.
    pub fn start(file: File) -> Sweep
        ensures { result ≡ swept [] file }
    {
        Sweep {
            file,
            count: 0,
            last: NO_RECORD.file(),
            ordered: true,
            met: false,
            place: 0,
            offset: 0,
        }
    }

    // One record on, with nothing more of the file.
    fn past(self, last: File, number: usize, ordered: bool) -> Sweep
        ensures { result ≡ past self last number ordered }
    {
        Sweep {
            count: number,
            last,
            ordered,
            ..self
        }
    }

    // One record more, the number-th: it comes after `count` others. Once they are out of order nothing more is looked for.
    pub fn step(self, t: Tail, number: usize) -> Sweep
        ensures { result ≡ stepped self t number }
    {
        let this = t.file();
        if !((self.count == 0) | self.last.before(this)) {
            return self.past(this, number, false);
        }
        if this.is(self.file) & !self.met {
            return Sweep {
                count: number,
                last: this,
                met: true,
                place: self.count,
                offset: t.offset,
                ..self
            };
        }
        self.past(this, number, self.ordered)
    }
}

// The refusals of the table alone.
fn admit(room: Room, used: usize, s: Sweep) -> Result<(), TailRefusal>
    ensures { result ≡ verdict (by_table room used s []) }
{
    bar(!room.sized, TailRefusal::BadArea)?;
    bar((room.records < used) | !s.ordered, TailRefusal::Damaged)
}

// The refusals of the table and of the stamp, which the transaction checks.
fn admit_claim(room: Room, used: usize, s: Sweep, claim: Claim) -> Result<(), TailRefusal>
    ensures { result ≡ verdict (by_stamp room used s claim []) }
{
    admit(room, used, s)?;
    match transaction::check(claim.record, claim.domain, claim.stamp) {
        Ok(passes) => bar(!passes, TailRefusal::Unstamped),
        Err(_) => Err(TailRefusal::Damaged),
    }
}

// What finding answers. Room, count and sweep are no struct, here and below: each is found of something else that is lent.
pub fn find_by(
    room: Room,
    used: usize,
    s: Sweep,
    size: u64,
    claim: Claim,
) -> Result<Finding, TailRefusal>
    ensures { result ≡ find_by room used s size claim }
{
    admit_claim(room, used, s, claim)?;
    if !s.met {
        return Ok(Finding::Unknown);
    }
    if size < s.offset {
        return Ok(Finding::Shrunk);
    }
    Ok(Finding::Same(s.offset))
}

// What adding answers.
pub fn add_by(room: Room, used: usize, s: Sweep) -> Result<(), TailRefusal>
    ensures { result ≡ add_by room used s }
{
    admit(room, used, s)?;
    bar(s.met, TailRefusal::Present)?;
    bar(room.records <= used, TailRefusal::Full)
}

// What removing answers.
pub fn remove_by(room: Room, used: usize, s: Sweep) -> Result<(), TailRefusal>
    ensures { result ≡ remove_by room used s }
{
    admit(room, used, s)?;
    bar(!s.met, TailRefusal::Absent)
}

// What moving to an offset answers.
pub fn move_by(
    room: Room,
    used: usize,
    s: Sweep,
    offset: u64,
    claim: Claim,
) -> Result<(), TailRefusal>
    ensures { result ≡ move_by room used s offset claim }
{
    admit_claim(room, used, s, claim)?;
    bar(!s.met, TailRefusal::Absent)?;
    bar(offset < s.offset, TailRefusal::Backward)
}
