// Reading a file.
ghost use Rattle.std.specs.Prelude.{◌-◌, ◌≤◌, length, IfOk};

use std::io::{ErrorKind, Read};
use std::rt::Files;
use std::{fs, io};

// Reads once, behind the bytes that are there, and answers how many came: none at the end, or where there is no room.
fn read_more(file: &mut impl Read, into: &mut [u8], done: usize) -> io::Result<usize>
    ensures { IfOk result (λ more. more ≤ length into.new - done) }
{
    if into.len() < done {
        return Ok(0);
    }
    file.read(&mut into[done..])
}

// The bytes of an open file go to `into`, as many as there is room for; it answers how many there are. Nothing says that a file ends, and a
// proved loop has to: its turns are counted, up to a number that no run uses up.
fn read_all(file: &mut impl Read, into: &mut [u8]) -> io::Result<usize> {
    let mut done = 0;
    for _ in 0..u64::MAX {
        let more = read_more(file, into, done)?;
        if more == 0 {
            break;
        }
        done += more;
    }
    Ok(done)
}

// Opens the file of a path, which has to be text.
fn open<R: Files>(rt: &R, path: &[u8]) -> io::Result<R::File> {
    match str::from_utf8(path) {
        Ok(name) => fs::open(rt, name),
        Err(_) => Err(io::Error::from(ErrorKind::InvalidFilename)),
    }
}

// The bytes of the file of a path go to `into`, as many as there is room for; it answers how many there are.
pub fn read_file(rt: &impl Files, path: &[u8], into: &mut [u8]) -> io::Result<usize> {
    read_all(&mut open(rt, path)?, into)
}
