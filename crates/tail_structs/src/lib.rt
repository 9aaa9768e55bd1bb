// The tail table as a lent slice of structs: finding and moving, which answer and leave what they do on the structs' flat words (`tails`).
// What they decide is `tail_table`'s.
#![tactic(auto)]

ghost use Rattle.std.specs.Prelude.{◌≡◌};
ghost use Rattle.tail_table.specs.Table.{words_of};
ghost use Rattle.tail_table.specs.TailCalls.{find_of, move_of, table_left};
ghost use Rattle.tail_structs.specs.Structs.{looked, offset_set};

use tail_answers::{Finding, TailRefusal};
use tail_table::{Claim, File, Room, Sweep, Tail, find_by, move_by};

// The records in use, each looked at once: the one loop. It is `tails::sweep` over other memory, as each of the two forms below is thin.
fn scan(tails: &[Tail], used: usize, file: File) -> Sweep
    ensures { result ≡ looked tails.now used file }
{
    let n = Room::of_records(tails.len()).reach(used);
    let mut s = Sweep::start(file);
    for (i, tail) in tails[..n].iter().enumerate() {
        s = s.step(*tail, i + 1);
    }
    s
}

// Whether a file is the one whose offset was saved, by its size, under a stamp that still passes.
pub fn find(
    tails: &[Tail],
    used: usize,
    file: File,
    size: u64,
    claim: Claim,
) -> Result<Finding, TailRefusal>
    ensures { result ≡ find_of (words_of tails.now) used file size claim }
{
    let s = scan(tails, used, file);
    find_by(Room::of_records(tails.len()), used, s, size, claim)
}

// Past the end nothing changes.
fn set_offset(tails: &mut [Tail], at: usize, offset: u64)
    ensures { tails.new ≡ offset_set at offset tails.old }
{
    if at < tails.len() {
        tails[at].offset = offset;
    }
}

// Another offset for a file that has a record, no step back, under a stamp that still passes.
pub fn move_offset(
    tails: &mut [Tail],
    used: usize,
    tail: Tail,
    claim: Claim,
) -> Result<(), TailRefusal>
    ensures { table_left result used (words_of tails.new) ≡ move_of (words_of tails.old) used tail claim }
{
    let s = scan(&*tails, used, tail.file());
    move_by(Room::of_records(tails.len()), used, s, tail.offset, claim)?;
    set_offset(tails, s.place, tail.offset);
    Ok(())
}
