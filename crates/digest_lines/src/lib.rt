// The lines that tell of all that is held by its digests. Nothing here reads or writes a file: the lines are put on a page. It asks
// nothing of its caller: what has no room is left out.
#![tactic(auto)]

ghost use Rattle.std.specs.Prelude.{◌≡◌};
ghost use Rattle.text.specs.Writing.{put_all};
ghost use Rattle.digest_lines.specs.DigestTexts.{digests_text};

use lines::put_line;
use text::Page;

// The digests of all that is held, and the count of used tail records.
#[derive(Clone, Copy)]
pub struct Digests {
    pub accepted: u64,
    pub candidate: u64,
    pub recovery: u64,
    pub exchange: u64,
    pub table: u64,
    pub log: u64,
    pub groups: u64,
    pub status: u64,
    pub used: u64,
    pub tails: u64,
}

// Five lines: the areas, the table, the log, the status part's bytes, and the tail table.
pub fn put_digests(page: &mut Page, d: Digests)
    ensures { page.new ≡ put_all page.old (digests_text d) }
{
    put_line(
        page,
        b"bytes",
        &[d.accepted, d.candidate, d.recovery, d.exchange],
    );
    put_line(page, b"table", &[d.table]);
    put_line(page, b"log", &[d.log]);
    put_line(page, b"status", &[d.groups, d.status]);
    put_line(page, b"tails", &[d.used, d.tails]);
}
