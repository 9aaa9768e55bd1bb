// Which command a key and its numbers make.
use super::{Asking, Bringing, Command, Ending, Marking, Payloads, Planning, Tailing, Working};
use holdings::Area;
use record::{Opening, Outcome, Reporting};
use rows::FIELDS;
use seeds::Seeded;
use step_stamps::SaveStamp;
use tail_table::Tail;

// The numbers of a line in a row, as many as the longest has, which gives a record.
type Numbers = [u64; FIELDS];

fn seeded(count: u64, seed: u64) -> Seeded {
    Seeded {
        count: count as usize,
        seed,
    }
}

// The outcome of a number; the code is that of a failure.
fn outcome(number: u64, code: u64) -> Outcome {
    match number {
        0 => Outcome::Waiting,
        1 => Outcome::Failed(code),
        _ => Outcome::Done,
    }
}

fn reporting(n: Numbers) -> Reporting {
    Reporting {
        ticket: n[0],
        outcome: outcome(n[1], n[2]),
    }
}

// No more may be lent of an area than is held.
fn lend(area: Area, count: usize) -> Command {
    if area.held() < count {
        return Command::Bad;
    }
    Command::Lend { area, count }
}

fn put(area: Area, at: usize, value: u64) -> Command {
    if area.held() <= at || area.most() < value {
        return Command::Bad;
    }
    Command::Put { area, at, value }
}

fn preparing(key: u8, n: Numbers) -> Command {
    let area = Area::at(n[0]);
    let at = n[1] as usize;
    match key {
        b'l' => lend(area, at),
        b'p' => put(area, at, n[2]),
        b'f' => Command::Fill(seeded(n[0], n[1])),
        b't' => Command::Tails(n[0] as usize),
        _ => match row_reading::record_of(n) {
            Some(given) => Command::Record(given),
            None => Command::Bad,
        },
    }
}

fn open(n: Numbers) -> Command {
    Command::Open {
        opening: Opening {
            revision: n[0],
            serial: n[1],
            replacements: n[2],
        },
        payload: seeded(n[3], n[4]),
    }
}

// A call that brings both payloads, by their lengths and their seeds in the order of a line.
fn bring(new: u64, new_seed: u64, old: u64, old_seed: u64, call: Bringing) -> Command {
    Command::Bring {
        payloads: Payloads {
            candidate: seeded(new, new_seed),
            recovery: seeded(old, old_seed),
        },
        call,
    }
}

fn begin(structural: bool, n: Numbers) -> Command {
    let call = Bringing::Begin {
        structural,
        pairs: seeded(n[4], n[5]),
    };
    bring(n[0], n[1], n[2], n[3], call)
}

fn report_structure(n: Numbers) -> Command {
    let call = Bringing::ReportStructure(reporting(n));
    bring(n[3], n[4], n[5], n[6], call)
}

fn report(undoing: bool, n: Numbers) -> Working {
    Working::Report {
        undoing,
        given: reporting(n),
        payload: n[3],
    }
}

fn working(key: u8, n: Numbers) -> Working {
    match key {
        b'1' => Working::Ask(Asking::Structure),
        b'2' => Working::Ask(Asking::Update),
        b'3' => Working::Ask(Asking::Rollback),
        b'U' => report(false, n),
        _ => report(true, n),
    }
}

fn ending(key: u8, length: usize) -> Ending {
    match key {
        b'c' => Ending::Commit,
        b'R' => Ending::RecoverRetained,
        _ => Ending::Snapshot {
            refreshing: key == b'n',
            length,
        },
    }
}

fn stamp(domain: u64, revision: u64, replacements: u64) -> SaveStamp {
    SaveStamp {
        domain,
        revision,
        replacements,
    }
}

fn planning(key: u8, n: Numbers) -> Planning {
    match key {
        b's' => Planning::Stamp(n[0]),
        _ => Planning::Check {
            domain: n[0],
            stamp: stamp(n[1], n[2], n[3]),
        },
    }
}

fn marking(key: u8, id: u64, flag: u64) -> Marking {
    match key {
        b'L' => Marking::Link {
            id,
            domain: flag == 1,
        },
        b'I' => Marking::Initialize(id),
        _ => Marking::Cancel(id),
    }
}

fn tail(device: u64, inode: u64, offset: u64) -> Tail {
    Tail {
        device,
        inode,
        offset,
    }
}

fn tailing(key: u8, n: Numbers) -> Tailing {
    let tail = tail(n[0], n[1], n[2]);
    match key {
        b'+' => Tailing::Add(tail),
        b'-' => Tailing::Remove(tail.file()),
        b'F' | b'G' => Tailing::Find {
            structs: key == b'G',
            file: tail.file(),
            size: n[2],
            domain: n[3],
            stamp: stamp(n[4], n[5], n[6]),
        },
        _ => Tailing::Move {
            structs: key == b'N',
            tail,
            domain: n[3],
            stamp: stamp(n[4], n[5], n[6]),
        },
    }
}

// The command of a key, with its numbers; a key of no template is Bad. A key is no enum: it is the byte before its template in a
// text (script). Numbers are in their ranges by the template, but for those that go by the area, and the number of a ticket of kind 0:
// these are judged here. So every number of a command is in its range, by the code; no contract says so.
pub fn of_key(key: u8, n: Numbers) -> Command {
    match key {
        b'.' => Command::Show,
        b'l' | b'p' | b'f' | b't' | b'=' => preparing(key, n),
        b'o' => open(n),
        b'b' => begin(false, n),
        b'B' => begin(true, n),
        b'e' => bring(n[0], n[1], n[2], n[3], Bringing::Edit),
        b'S' => report_structure(n),
        b'1' | b'2' | b'3' | b'U' | b'V' => Command::Work(working(key, n)),
        b'c' | b'r' | b'R' | b'n' => Command::End(ending(key, n[0] as usize)),
        b's' | b'?' => Command::Plan(planning(key, n)),
        b'L' | b'I' | b'C' => Command::Mark(marking(key, n[0], n[1])),
        b'+' | b'-' | b'F' | b'G' | b'M' | b'N' => Command::Tail(tailing(key, n)),
        _ => Command::Bad,
    }
}
