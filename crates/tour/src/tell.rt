// What the tour writes, and the work that stands in for an agent's: it says what it does.
use answers::{Answer, Refusal};
use record::{Outcome, Record, Reporting};
use std::io;
use step_stamps::SaveStamp;

// The domain of the plan.
pub(crate) const DOMAIN: u64 = 3;

fn tell(rt: &impl Print, what: &str, number: u64) -> io::Result<()> {
    println!(rt; "{what}{number}")
}

// How a reload is to end.
#[derive(Clone, Copy)]
pub(crate) enum End {
    Commit,
    Recovery,
}

// The work of an action, which fails with code 5 where it is `broken`; and its report.
pub(crate) fn work(
    rt: &impl Print,
    ticket: u64,
    action: u32,
    broken: u32,
) -> io::Result<Reporting> {
    let outcome = if action == broken {
        tell(rt, "  fails: action ", action as u64)?;
        Outcome::Failed(5)
    } else {
        tell(rt, "  done: action ", action as u64)?;
        Outcome::Done
    };
    Ok(Reporting { ticket, outcome })
}

// The undoing of an action, and its report.
pub(crate) fn restore(rt: &impl Print, ticket: u64, action: u32) -> io::Result<Reporting> {
    tell(rt, "  undone: action ", action as u64)?;
    Ok(Reporting {
        ticket,
        outcome: Outcome::Done,
    })
}

// Writes what the call that ended a reload answered.
pub(crate) fn ended(rt: &impl Print, by: End, last: Answer) -> io::Result<()> {
    let number = last.number();
    match by {
        End::Commit => tell(rt, "commit: ", number),
        End::Recovery => tell(rt, "recover retained: ", number),
    }
}

// Writes 1 where the stamp of a plan passes, and 0 where it does not.
pub(crate) fn verdict(
    rt: &impl Print,
    r: Record,
    plan: Result<SaveStamp, Refusal>,
) -> io::Result<()> {
    let Ok(stamp) = plan else {
        return Ok(());
    };
    let passes = matches!(transaction::check(r, DOMAIN, stamp), Ok(true));
    tell(rt, "the stamp passes: ", u64::from(passes))
}
