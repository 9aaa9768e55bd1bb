// What the program writes: lines of events, the last two lines, by way of a page on which they wait.
use anyhow::{Context, Result};
use console::flush_before;
use event_lines::{put_ended, put_event};
use input_events::event_at;
use printing::put_record;
use record::Record;
use replays::Ending;
use std::io::Write;
use text::Page;

// More bytes than the longest line has, and room for the last two.
const LINE: usize = 500;

pub(crate) const LAST_LINES: usize = 4096;

// How many bytes are written at once.
pub(crate) const CHUNK: usize = 65536;

// Writes out what waits where this is due, and where there may be no room for a line more. A line of each
// program's own: it binds the room and the words that are its.
fn write_on(output: &mut impl Write, page: &mut Page, due: bool) -> Result<()> {
    flush_before(output, due, page, LINE).context("replay: standard output")
}

// The line of an event, where it has an answer.
fn put_line(
    output: &mut impl Write,
    words: &[u64],
    answers: &[u64],
    number: usize,
    page: &mut Page,
) -> Result<()> {
    if let Some(answer) = answers.get(number) {
        write_on(output, page, false)?;
        put_event(page, number as u64, event_at(words, number).kind, *answer);
    }
    Ok(())
}

// A line for each event of a portion, in order. By number: an event and its answer are both found by it.
pub(crate) fn put_events(
    output: &mut impl Write,
    words: &[u64],
    answers: &[u64],
    from: usize,
    to: usize,
    page: &mut Page,
) -> Result<()> {
    for i in from..to {
        put_line(output, words, answers, i, page)?;
    }
    Ok(())
}

// The last two lines: how it ended, and the record.
pub(crate) fn put_end(
    output: &mut impl Write,
    page: &mut Page,
    ending: Ending,
    ran: usize,
    record: Record,
) -> Result<()> {
    write_on(output, page, false)?;
    put_ended(page, ending, ran as u64);
    put_record(page, record);
    write_on(output, page, true)
}
