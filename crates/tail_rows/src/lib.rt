// The calls of `tail_structs` for whoever has a tail table's flat words: they are copied into a local row of structs, whose front is lent,
// and after a move they are copied back. It is for the driver.
#![tactic(auto)]

ghost use Rattle.std.specs.Prelude.{◌≡◌, ◌≤◌, ◌/◌, ◌%◌, length, take, not, Some, None};
ghost use Rattle.choice.specs.Pick.{pick};
ghost use Rattle.tail_table.specs.Table.{tails_of, words_of};
ghost use Rattle.tail_table.specs.Sweeping.{room_of};
ghost use Rattle.tail_table.specs.TailCalls.{find_of, move_of, table_left};

use tail_answers::{Finding, TailRefusal};
use tail_table::{Claim, File, MOST_RECORDS, NO_RECORD, Room, Tail, WIDTH};

// The room of words that are a table's.
fn room_of(words: &[u64]) -> Option<Room>
    ensures { result ≡ pick (not (room_of (length words.now)).sized) None (Some (room_of (length words.now))) }
{
    let room = Room::of_words(words.len());
    if !room.sized {
        return None;
    }
    Some(room)
}

// The words' records, at the front of a row.
fn row_of(words: &[u64]) -> [Tail; MOST_RECORDS]
    requires { length words.now ≤ 768 }
    ensures { take (length words.now / 3) result ≡ tails_of words.now }
{
    let mut row = [NO_RECORD; MOST_RECORDS];
    // An index, not an iterator, here and in `put_back`: among words a record has a place, and no reference.
    for i in 0..words.len() / WIDTH {
        row[i] = tails::tail_at(words, i);
    }
    row
}

// The front of a row, over the words.
fn put_back(words: &mut [u64], row: &[Tail; MOST_RECORDS])
    requires { (length words.old % 3 ≡ 0) × (length words.old ≤ 768) }
    ensures { words.new ≡ words_of (take (length words.old / 3) row.now) }
{
    for i in 0..words.len() / WIDTH {
        tails::put_tail(words, i, row[i]);
    }
}

// What `tail_structs::find` finds in the words' records.
pub fn find(
    words: &[u64],
    used: usize,
    file: File,
    size: u64,
    claim: Claim,
) -> Result<Finding, TailRefusal>
    ensures { result ≡ find_of words.now used file size claim }
{
    let Some(room) = room_of(words) else {
        return Err(TailRefusal::BadArea);
    };
    let row = row_of(words);
    tail_structs::find(&row[..room.records], used, file, size, claim)
}

// What `tail_structs::move_offset` does to them.
pub fn move_offset(
    words: &mut [u64],
    used: usize,
    tail: Tail,
    claim: Claim,
) -> Result<(), TailRefusal>
    ensures { table_left result used words.new ≡ move_of words.old used tail claim }
{
    let room = match room_of(words) {
        Some(room) => room,
        None => return Err(TailRefusal::BadArea),
    };
    let mut row = row_of(words);
    let answer = tail_structs::move_offset(&mut row[..room.records], used, tail, claim);
    put_back(words, &row);
    answer
}
