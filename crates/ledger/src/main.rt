// The log's example, played through the recorder: room 3, opened at 0 and 0, update-only begin without actions, commit. It prints the
// sixteen words of the log.
#![tactic(auto)]

use record::Opening;
use recorder::{EVENT, HEAD};
use std::io;
use transaction::{AREA, TABLE};

// The words of a log with room for three events.
const LOG: usize = HEAD + 3 * EVENT;

fn print_words(rt: &impl Print, words: &[u64]) -> io::Result<()> {
    for word in words {
        print!(rt; "{word} ")?;
    }
    println!(rt)
}

fn main(rt: HostRuntime) -> io::Result<()> {
    let mut log = [7u64; LOG];
    let mut accepted = [0u8; AREA];
    let mut candidate = [0u8; AREA];
    let mut recovery = [0u8; AREA];
    let mut table = [0u64; TABLE];
    let opened = recorder::open(Opening::start(), &mut log, &mut accepted, b"");
    let begun = recorder::begin(
        opened.state,
        &mut log,
        &mut candidate,
        &mut recovery,
        &mut table,
        b"",
        b"",
        &[],
    );
    recorder::commit(begun.state, &mut log, &mut accepted, &mut candidate);
    print_words(&rt, &log)
}
