// The lines that programs write: an answer, and a record. Nothing here reads or writes a file: a line is put on a page. No function asks
// anything of its caller: what has no room is left out.
#![tactic(auto)]

ghost use Rattle.std.specs.Prelude.{◌≡◌};
ghost use Rattle.text.specs.Writing.{put_all};
ghost use Rattle.printing.specs.Printing.{reply_text, record_text};

use lines::put_line;
use record::Record;
use replies::Reply;
use text::{Page, front};

// An answer: its number and its values.
pub fn put_reply(page: &mut Page, reply: Reply)
    ensures { page.new ≡ put_all page.old (reply_text reply) }
{
    let numbers = [reply.number, reply.first, reply.second, reply.third];
    put_line(page, b"", front(&numbers, reply.count));
}

// The word `record` and the record's numbers.
pub fn put_record(page: &mut Page, record: Record)
    ensures { page.new ≡ put_all page.old (record_text «record») }
{
    put_line(page, b"record", &rows::numbers(record));
}
