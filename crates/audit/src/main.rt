// The program `audit`: it reads an input log from a file, asks the plain engine about the first 0, 1, 2 .. events of it, and writes the
// answers to each, and how the audit ended. What it writes is fixed by docs/AUDIT.md.
#![tactic(auto)]

mod beginnings;

use anyhow::Result;
use beginnings::{CHUNK, audit_all, put_end};
use input_events::Fault;
use log_files::{Given, LoadError, WORDS};
use std::io;
use std::rt::{Env, Files};
use text::{Page, front};

const NAME: &str = "audit";

const TAKES: &str = "it takes a file and up to four numbers";

const USAGE: &str = "usage: audit FILE [REVISION [SERIAL [REPLACEMENTS [LENGTH]]]]
FILE is an input log, eight bytes a word, lowest byte first: 4 words of head, and 8 words an event.
From an opening at the three numbers with an accepted payload of LENGTH bytes (each 0 if it is not given),
the plain engine is asked about the first 0, 1, 2 .. events.
";

// Audits the log that the file holds.
fn audit_file(rt: &(impl Env + Files + Print + Eprint), given: Given) -> Result<()> {
    let mut words = [0u64; WORDS];
    let mut buffer = [0u8; CHUNK];
    let mut page = Page::new(&mut buffer);
    let mut output = io::writer(rt);
    match log_files::load(rt, NAME, given, &mut words) {
        Ok(count) => audit_all(&mut output, given.opening, front(&words, count), &mut page),
        Err(LoadError::Refused(why)) => put_end(
            &mut output,
            &mut page,
            Err(Fault::Refused(why)),
            0,
        ),
        Err(LoadError::Unreadable) => Ok(rt.eprint(USAGE)?),
        Err(LoadError::Untold(why)) => Err(why.into()),
        Err(LoadError::Unexplained(why)) => Err(why.into()),
    }
}

fn main(rt: HostRuntime) -> Result<()> {
    match log_files::read_words(&rt, log_files::BEHIND) {
        Ok(given) => audit_file(&rt, given),
        Err(why) => Ok(log_files::complain_words(&rt, NAME, why, TAKES, USAGE)?),
    }
}
