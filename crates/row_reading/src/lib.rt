// A row of numbers read back into the record whose numbers it has. Nothing is cut: a row that has a number past the range of its field is
// no record. No function asks anything of its caller.
#![tactic(auto)]

ghost use Rattle.std.specs.Prelude.{◌≡◌};
ghost use Rattle.row_reading.specs.RowReading.{in_ranges, live_of, record_of};

use phases::Phase;
use record::Record;
use rows::{FIELDS, TOP8, TOP32};
use tickets::Live;

// The first and the last kind of live ticket.
const NONE: u64 = Live::NONE as u64;

const ROLLBACK: u64 = Live::ROLLBACK as u64;

// Whether each number is in the range of its field.
fn in_ranges(row: [u64; FIELDS]) -> bool
    ensures { result ≡ in_ranges row }
{
    (row[5] <= 1)
        & (row[6] <= TOP8)
        & (row[7] <= TOP8)
        & (row[8] <= TOP8)
        & (row[9] <= TOP32)
        & (row[10] <= TOP32)
        & (row[11] <= TOP32)
        & (row[12] <= 1)
        & (row[13] <= ROLLBACK)
        & ((row[13] != NONE) | (row[14] == 0))
}

// The live ticket by the number of its work.
fn live_of(work: u8, number: u64) -> Live
    ensures { result ≡ live_of work number }
{
    match work {
        Live::STRUCTURE => Live::Structure(number),
        Live::UPDATE => Live::Update(number),
        Live::ROLLBACK => Live::Rollback(number),
        _ => Live::None,
    }
}

// The record whose numbers these are; none where a number is past the range of its field. No `TryFrom`, as in `rows`.
pub fn record_of(row: [u64; FIELDS]) -> Option<Record>
    ensures { result ≡ record_of row }
{
    if !in_ranges(row) {
        return None;
    }
    Some(Record {
        revision: row[0],
        serial: row[1],
        accepted: row[2] as usize,
        candidate: row[3] as usize,
        recovery: row[4] as usize,
        staged: row[5] == 1,
        phase: Phase {
            number: row[6] as u8,
        },
        forward: row[7] as u8,
        back: row[8] as u8,
        entries: row[9] as u32,
        applied: row[10] as u32,
        attempted: row[11] as u32,
        restoring: row[12] == 1,
        live: live_of(row[13] as u8, row[14]),
        replacements: row[15],
    })
}
