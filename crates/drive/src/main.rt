// The driver: plays a script of calls over the proved libraries. It reads the script from standard input, a command to a line,
// makes each call in turn on what it holds, and writes the answers to standard output.
#![tactic(auto)]

mod bring;
mod end;
mod held;
mod output;
mod play;
mod prepare;
mod run;
mod show;
mod tail;
mod telling;
mod work;

use anyhow::Result;
use std::io;

fn print_usage(to: &impl Print) -> io::Result<()> {
    to.print(
        "usage: drive < SCRIPT    plays a script, a command to a line, and writes the answers
       drive help        says this
A payload P is LENGTH:SEED, words W are COUNT:SEED; an area B is a, c, r, x, t, l, g, s or f; # starts a comment.
  lend B N | put B INDEX VALUE | fill P | record and its 16 numbers | tails COUNT | show
  open REVISION SERIAL REPLACEMENTS P | begin P P W | begin-structural P P W | edit P P
  ask-structure | ask-update | ask-rollback | report-structure TICKET OUTCOME CODE P P
  report-update TICKET OUTCOME CODE PAYLOAD | report-rollback TICKET OUTCOME CODE PAYLOAD
  commit | recover LENGTH | recover-retained | refresh LENGTH
  stamp DOMAIN | check DOMAIN D R C | link ID D | initialize ID | cancel ID
  add-tail DEVICE INODE OFFSET | remove-tail DEVICE INODE
  find-tail DEVICE INODE SIZE DOMAIN D R C | move-tail DEVICE INODE OFFSET DOMAIN D R C
  find-struct and move-struct, with the same words
",
    )
}

fn main(rt: HostRuntime) -> Result<()> {
    if !console::is_given(&rt, 1) {
        return play::play(&mut rt.stdin(), &mut rt.stdout());
    }
    if console::asks_for_help(&rt) {
        print_usage(&rt.stdout())?;
        return Ok(());
    }
    eprintln!(rt; "drive: it takes no argument but help")?;
    print_usage(&rt.stderr())?;
    Ok(())
}
