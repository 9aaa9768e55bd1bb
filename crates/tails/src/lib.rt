// The tail table on flat words, lent by the caller, with the count of its used records in and out: is this file the one that was read
// before, and from where does reading go on? A refusal changes nothing. Words and count are two parameters, not a struct: the words are lent,
// and the count comes back in the answer.
#![tactic(auto)]

ghost use Rattle.std.specs.Prelude.{◌≡◌, ◌∷◌, [], ◌++◌, ◌+◌, ◌*◌, ◌%◌, ◌<◌, ◌≤◌, length, take, get_or, set};
ghost use Rattle.tail_table.specs.Table.{tails_of, words_of, file_of, used_of, entered, over_first, record_put, zeroes};
ghost use Rattle.tail_table.specs.TailCalls.{table_left, counted, find_of, add_of, remove_of, move_of};
ghost use Rattle.tail_table.specs.Sweeping.{room_of, reach_of, place_of, swept, cut};

use tail_answers::{Finding, TailRefusal};
use tail_table::{
    Claim, File, NO_RECORD, Room, Sweep, Tail, WIDTH, add_by, find_by, move_by, remove_by,
};

// Record i of the words; past the end stand zeroes.
pub fn tail_at(words: &[u64], i: usize) -> Tail
    ensures { result ≡ get_or (tails_of words.now) i zeroes }
{
    if words.len() / WIDTH <= i {
        return NO_RECORD;
    }
    let at = i * WIDTH;
    Tail {
        device: words[at],
        inode: words[at + 1],
        offset: words[at + 2],
    }
}

// A record put in place of record i, where the words have one.
pub fn put_tail(words: &mut [u64], i: usize, t: Tail)
    ensures { words.new ≡ record_put i t words.old }
{
    if words.len() % WIDTH != 0 {
        return;
    }
    if words.len() / WIDTH <= i {
        return;
    }
    let at = i * WIDTH;
    words[at] = t.device;
    words[at + 1] = t.inode;
    words[at + 2] = t.offset;
}

fn put_offset(words: &mut [u64], i: usize, offset: u64)
    requires { i * 3 + 2 < length words.old }
    ensures { words.new ≡ set words.old (i * 3 + 2) offset }
{
    words[i * WIDTH + 2] = offset;
}

// Looks at each used record once.
fn sweep(words: &[u64], used: usize, file: File) -> Sweep
    ensures { result ≡ swept (take (reach_of (room_of (length words.now)) used) (tails_of words.now)) file }
{
    let n = Room::of_words(words.len()).reach(used);
    let mut s = Sweep::start(file);
    // An index, not chunks: a record is read by its place here as where records are moved, and past the end stand zeroes.
    for i in 0..n {
        s = s.step(tail_at(words, i), i + 1);
    }
    s
}

// How many of the used records stand before a file, at their front: where it is put in.
fn place_of(words: &[u64], used: usize, file: File) -> usize
    requires { used ≤ length (tails_of words.now) }
    ensures { result ≡ place_of (used_of words.now used) file }
{
    // An index, not an iterator: the answer is the place where it stops.
    for i in 0..used {
        if !tail_at(words, i).file().before(file) {
            return i;
        }
    }
    used
}

// A record put in at its place: those from there on move up by one, over the first that is not in use.
fn put_in(words: &mut [u64], used: usize, t: Tail)
    requires { (length words.old % 3 ≡ 0) × (used < length (tails_of words.old)) }
    ensures { words.new ≡ over_first (entered t (used_of words.old used)) words.old }
{
    let place = place_of(words, used, t.file());
    let mut carried = t;
    // Record by record, here and in `take_out`: the definitions speak of records, and copy_within would move words.
    for i in place..used {
        let next = tail_at(words, i);
        put_tail(words, i, carried);
        carried = next;
    }
    put_tail(words, used, carried);
}

// The record at a place taken out: those behind it move down by one, and the freed last one is zeroed.
fn take_out(words: &mut [u64], place: usize, used: usize)
    requires { (length words.old % 3 ≡ 0) × ((used ≤ length (tails_of words.old)) × (place < used)) }
    ensures { words.new ≡ over_first (cut place (used_of words.old used) ++ zeroes ∷ []) words.old }
{
    let last = used - 1;
    for i in place..last {
        let next = tail_at(words, i + 1);
        put_tail(words, i, next);
    }
    put_tail(words, last, NO_RECORD);
}

// Whether a file is the one whose offset was saved, by its size, under a stamp that still passes.
pub fn find(
    words: &[u64],
    used: usize,
    file: File,
    size: u64,
    claim: Claim,
) -> Result<Finding, TailRefusal>
    ensures { result ≡ find_of words.now used file size claim }
{
    let s = sweep(words, used, file);
    find_by(Room::of_words(words.len()), used, s, size, claim)
}

// A record for a file that has none; it answers how many are in use then.
pub fn add(words: &mut [u64], used: usize, tail: Tail) -> Result<usize, TailRefusal>
    ensures { counted result used words.new ≡ add_of words.old used tail }
{
    let s = sweep(words, used, tail.file());
    add_by(Room::of_words(words.len()), used, s)?;
    put_in(words, used, tail);
    Ok(used + 1)
}

// The record of a file, taken out; it answers how many are in use then.
pub fn remove(words: &mut [u64], used: usize, file: File) -> Result<usize, TailRefusal>
    ensures { counted result used words.new ≡ remove_of words.old used file }
{
    let s = sweep(words, used, file);
    remove_by(Room::of_words(words.len()), used, s)?;
    take_out(words, s.place, used);
    Ok(used - 1)
}

// A file's saved offset moved on, under a stamp that still passes.
pub fn move_offset(
    words: &mut [u64],
    used: usize,
    tail: Tail,
    claim: Claim,
) -> Result<(), TailRefusal>
    ensures { table_left result used words.new ≡ move_of words.old used tail claim }
{
    let s = sweep(words, used, tail.file());
    // By hand, not by `?`: an edit that answers Done here, and moves nothing, then turns this answer alone.
    if let Err(why) = move_by(Room::of_words(words.len()), used, s, tail.offset, claim) {
        return Err(why);
    }
    put_offset(words, s.place, tail.offset);
    Ok(())
}
