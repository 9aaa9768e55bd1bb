// What no clause says: which bytes of an input are its lines, when what waits is written, and that a failure comes through. The chunk and
// the line are small, so that lines cross chunks and are cut.
use super::{Reading, flush_before};
use std::io;
use std::io::{ErrorKind, Read, Write};
use std::test::Fail;
use text::Page;

const NO_LINE: &str = "no line";

// A disk that is broken.
#[derive(Clone, Copy)]
struct Broken;

impl Read for Broken {
    fn read(&mut self, _buf: &mut [u8]) -> io::Result<usize> {
        Err(io::Error::from(ErrorKind::Other))
    }
}

impl Write for Broken {
    fn write(&mut self, _buf: &[u8]) -> io::Result<usize> {
        Err(io::Error::from(ErrorKind::StorageFull))
    }

    fn flush(&mut self) -> io::Result<()> {
        Ok(())
    }
}

#[test]
fn lines_cross_chunks_and_are_cut(rt: HostRuntime) -> Result<(), Fail> {
    let mut input = b"ab\n\nabcdef\nc".as_slice();
    let mut chunk = [0u8; 4];
    let mut room = [0u8; 5];
    let mut line = Page::new(&mut room);
    let mut reading = Reading::new(&mut chunk);
    for want in ["ab", "", "abcde", "c", ""] {
        reading.next_line(&mut input, &mut line)?;
        let got = str::from_utf8(line.filled()).unwrap_or(NO_LINE);
        assert_eq!(rt; got, want);
    }
    assert!(rt; reading.is_ended());
    Ok(())
}

#[test]
fn a_line_is_held_up_to_its_newline(rt: HostRuntime) {
    for (bytes, want) in [(b"a\nb\nc", true), (b"a\nbc\n", false)] {
        let mut chunk = *bytes;
        let reading = Reading {
            chunk: &mut chunk,
            filled: 4,
            at: 2,
            ended: false,
        };
        assert_eq!(rt; reading.holds_line(), want);
    }
}

#[test]
fn a_read_that_fails_is_no_end(rt: HostRuntime) {
    let mut chunk = [0u8; 4];
    let mut room = [0u8; 4];
    let mut line = Page::new(&mut room);
    let mut reading = Reading::new(&mut chunk);
    assert!(rt; reading.next_line(&mut Broken, &mut line).is_err());
}

#[test]
fn what_waits_is_written_where_it_is_due_or_room_is_short(rt: HostRuntime) -> Result<(), Fail> {
    let mut output = Vec::new(rt.alloc());
    let mut bytes = [0u8; 5];
    for (due, room, want) in [(false, 2, 3), (false, 3, 0), (true, 0, 0)] {
        let mut page = Page::new(&mut bytes);
        page.put_text(b"abc");
        flush_before(&mut output, due, &mut page, room)?;
        assert_eq!(rt; page.filled().len(), want);
    }
    assert_eq!(rt; output.as_slice(), b"abcabc".as_slice());
    let mut page = Page::new(&mut bytes);
    page.put_text(b"abc");
    assert!(rt; flush_before(&mut Broken, true, &mut page, 0).is_err());
    Ok(())
}
