// The lines that answer a command, put on the page on which what is written waits.
use super::telling::Told;
use digest_lines::put_digests;
use lines::put_line;
use printing::{put_record, put_reply};
use record::Record;
use text::Page;

// More than the longest answer has, which is that of `show`.
pub(crate) const ROOM: usize = 1000;

// The answer to the line of this number, which left this record.
pub(crate) fn put_told(page: &mut Page, told: Told, record: Record, line: u64) {
    match told {
        Told::Nothing => (),
        Told::Bad => put_line(page, b"?", &[line]),
        Told::Reply(reply) => put_reply(page, reply),
        Told::Shown(digests) => {
            put_record(page, record);
            put_digests(page, digests);
        }
    }
}
