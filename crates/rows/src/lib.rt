// A record as a row of numbers, which `row_reading` reads back. No function asks anything of its caller.
#![tactic(auto)]

ghost use Rattle.std.specs.Prelude.{◌≡◌};
ghost use Rattle.rows.specs.Rows.{row_of};

use record::Record;

// How many numbers a record has.
pub const FIELDS: usize = 16;

// The largest number of 8 bits, and of 32.
pub const TOP8: u64 = u8::MAX as u64;

pub const TOP32: u64 = u32::MAX as u64;

// A number for each field, in the order of the driver's page. No `From`: a row is the programs' format, and no conversion of the type.
pub fn numbers(r: Record) -> [u64; FIELDS]
    ensures { result ≡ row_of r }
{
    [
        r.revision,
        r.serial,
        r.accepted as u64,
        r.candidate as u64,
        r.recovery as u64,
        r.staged as u64,
        r.phase.number as u64,
        r.forward as u64,
        r.back as u64,
        r.entries as u64,
        r.applied as u64,
        r.attempted as u64,
        r.restoring as u64,
        r.live.work() as u64,
        r.live.number(),
        r.replacements,
    ]
}
