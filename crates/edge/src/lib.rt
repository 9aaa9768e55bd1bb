// For callers in C or Rust, under names of C's: copying and exchanging lent bytes, as `areas` has it, finding and moving in a
// tail table, as `tails` has it, and replaying an input log, as `replays` has it. A slice crosses as the address of its first element and
// its length; numbers cross as they are, so that a tail call is given the revision and the count of replacements of the settings, and the
// stamp's: the settings are idle, in the domain 0. A static library, for linkers alone: no crate can stand on it.
#![tactic(auto)]

ghost use Rattle.std.specs.Prelude.{◌≡◌, ◌∷◌, []};
ghost use Rattle.areas.specs.Areas.{copied, exchanged};
ghost use Rattle.tail_answers.specs.TailAnswers.{says_verdict};
ghost use Rattle.tail_table.specs.Table.{tail_of};
ghost use Rattle.tail_table.specs.TailCalls.{find_of, move_of};
ghost use Rattle.edge.specs.Edge.{file_at, claim_at, offset_or, replayed_at};

use record::Opening;
use step_stamps::SaveStamp;
use tail_answers::Finding;
use tail_table::{Claim, File, Tail};

// All bytes of src over the first of dst, where they fit.
#[unsafe(no_mangle)]
pub extern "C" fn edge_copy(dst: &mut [u8], src: &[u8])
    ensures { dst.new ≡ copied src.now dst.old }
{
    areas::copy_bytes(dst, src);
}

// Two areas of one size change places.
#[unsafe(no_mangle)]
pub extern "C" fn edge_exchange(a: &mut [u8], b: &mut [u8])
    ensures { a.new ∷ b.new ∷ [] ≡ exchanged a.old b.old }
{
    areas::exchange(a, b);
}

// The settings' revision and count of replacements, and then the stamp's.
fn claim(revision: u64, replacements: u64, stamped: u64, counted: u64) -> Claim
    ensures { result ≡ claim_at revision replacements stamped counted }
{
    let opening = Opening {
        revision,
        serial: 0,
        replacements,
    };
    Claim {
        record: opening.opened(0),
        domain: 0,
        stamp: SaveStamp {
            domain: 0,
            revision: stamped,
            replacements: counted,
        },
    }
}

// From where a file is read on: its saved offset where it may be the same, and else the largest u64.
#[unsafe(no_mangle)]
pub extern "C" fn edge_find_tail(
    words: &[u64],
    used: usize,
    device: u64,
    inode: u64,
    size: u64,
    revision: u64,
    replacements: u64,
    stamped: u64,
    counted: u64,
) -> u64
    ensures { result ≡ offset_or (find_of words.now used (file_at device inode) size (claim_at revision replacements stamped counted)) }
{
    let file = File { device, inode };
    let by = claim(revision, replacements, stamped, counted);
    match tails::find(words, used, file, size, by) {
        Ok(Finding::Same(offset)) => offset,
        Ok(Finding::Shrunk) => u64::MAX,
        Ok(Finding::Unknown) => u64::MAX,
        Err(_) => u64::MAX,
    }
}

// A file's saved offset moved on; it answers 0, or the refusal's number.
#[unsafe(no_mangle)]
pub extern "C" fn edge_move_tail(
    words: &mut [u64],
    used: usize,
    device: u64,
    inode: u64,
    offset: u64,
    revision: u64,
    replacements: u64,
    stamped: u64,
    counted: u64,
) -> u64
    ensures { result ∷ words.new ≡ (says_verdict (move_of words.old used (tail_of device inode offset) (claim_at revision replacements stamped counted)).answer).number ∷ (move_of words.old used (tail_of device inode offset) (claim_at revision replacements stamped counted)).words }
{
    let tail = Tail {
        device,
        inode,
        offset,
    };
    let by = claim(revision, replacements, stamped, counted);
    match tails::move_offset(words, used, tail, by) {
        Ok(()) => 0,
        Err(why) => why.number(),
    }
}

// At most so many events of an input log, from the first on, are replayed from the record of an opening, with an accepted payload of a
// length; it answers how many ran.
#[unsafe(no_mangle)]
pub extern "C" fn edge_replay(
    words: &[u64],
    from_revision: u64,
    from_serial: u64,
    from_replacements: u64,
    length: usize,
    answers: &mut [u64],
    most: usize,
) -> usize
    ensures { result ∷ answers.new ≡ replayed_at words.now from_revision from_serial from_replacements length answers.old most }
{
    let opening = Opening {
        revision: from_revision,
        serial: from_serial,
        replacements: from_replacements,
    };
    let done = replays::replay(words, 0, opening.opened(length), answers, most);
    done.ran
}
