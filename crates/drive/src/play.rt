// Running a script, line after line.
use super::held::Held;
use super::output::{ROOM, put_told};
use anyhow::{Context, Result};
use console::{Reading, flush_before};
use script::{LONGEST, read};
use std::io::{Read, Write};
use text::Page;

// A line is kept up to one byte more than it may have, so that one that is too long is seen to be so.
const LINE: usize = LONGEST + 1;

// How many bytes are read, and written, at once.
const CHUNK: usize = 65536;

// Writes out what waits before more is read, and where there may be no room for an answer. A line of each
// program's own: it binds the room and the words that are its. Words are put to an error, where there is one:
// on every result, each line would pay for two calls.
fn write_on(output: &mut impl Write, page: &mut Page, due: bool) -> Result<()> {
    match flush_before(output, due, page, ROOM) {
        Ok(()) => Ok(()),
        Err(why) => Err(why).context("drive: standard output"),
    }
}

// The next line.
fn read_on(input: &mut impl Read, reading: &mut Reading, line: &mut Page) -> Result<()> {
    match reading.next_line(input, line) {
        Ok(()) => Ok(()),
        Err(why) => Err(why).context("drive: standard input"),
    }
}

// Runs the script that is the input, line after line, until nothing is left to read; all that waited has been written out then. Here is
// all that the driver holds, and room: for what is read, a line of it, and what waits to be written. A function of its own, and no part of
// `main`: what it holds is 200 kilobytes of the stack, which the usage text needs none of.
#[inline(never)]
pub(crate) fn play(input: &mut impl Read, output: &mut impl Write) -> Result<()> {
    let mut held = Held::first();
    let mut line_bytes = [0u8; LINE];
    let mut line = Page::new(&mut line_bytes);
    let mut chunk = [0u8; CHUNK];
    let mut reading = Reading::new(&mut chunk);
    let mut buffer = [0u8; CHUNK];
    let mut page = Page::new(&mut buffer);
    for number in 1..=u64::MAX {
        write_on(output, &mut page, !reading.holds_line())?;
        read_on(input, &mut reading, &mut line)?;
        if reading.is_ended() && line.filled().is_empty() {
            return Ok(());
        }
        let told = held.run(read(line.filled()));
        put_told(&mut page, told, held.record, number);
    }
    Ok(())
}
