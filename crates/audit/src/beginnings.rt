// Auditing the words of a log, beginning after beginning, and writing what was found, by way of a page on which it waits.
use anyhow::{Context, Result};
use audit_lines::{Answers, audit, counted, put_answers};
use console::flush_before;
use event_lines::put_ended;
use record::Opening;
use replays::Ending;
use std::io::Write;
use text::Page;

// More bytes than the longest line has.
const LINE: usize = 200;

// How many bytes are written at once.
pub(crate) const CHUNK: usize = 65536;

// Writes out what waits where this is due, and where there may be no room for a line more. A line of each
// program's own: it binds the room and the words that are its.
fn write_on(output: &mut impl Write, page: &mut Page, due: bool) -> Result<()> {
    flush_before(output, due, page, LINE).context("audit: standard output")
}

// The line of the first events.
fn put_line(
    output: &mut impl Write,
    page: &mut Page,
    events: usize,
    answers: Answers,
) -> Result<()> {
    write_on(output, page, false)?;
    put_answers(page, events as u64, answers);
    Ok(())
}

// The last line: how it ended.
pub(crate) fn put_end(
    output: &mut impl Write,
    page: &mut Page,
    ending: Ending,
    events: usize,
) -> Result<()> {
    write_on(output, page, false)?;
    put_ended(page, ending, events as u64);
    write_on(output, page, true)
}

// Asks about the first 0, 1, 2 .. events, up to all that the head counts. Of a head that is not sound nothing more is asked.
pub(crate) fn audit_all(
    output: &mut impl Write,
    given: Opening,
    words: &[u64],
    page: &mut Page,
) -> Result<()> {
    let last = counted(words);
    for events in 0..=last {
        match audit(given, words, events) {
            Ok(answers) => put_line(output, page, events, answers)?,
            Err(why) => return put_end(output, page, Err(why), events),
        }
    }
    put_end(output, page, Ok(()), last)
}
