// The report of a phase's structure work, as a step on the record alone: what became of the work that a ticket was given for.
// Payloads are known by their lengths. Unless refused, a report spends its ticket.
#![tactic(auto)]

ghost use Rattle.std.specs.Prelude.{◌≡◌, ◌≤◌};
ghost use Rattle.bars.specs.Bars.{through};
ghost use Rattle.gates.specs.Gates.{gate_of};
ghost use Rattle.record.specs.Answers.{tells};
ghost use Rattle.step_structure.specs.Structure.{advanced, structure_done, report_structure_bars, report_structure_step};

use answers::{Answer, Refusal};
use phases::Phase;
use record::{Findings, Record, Reporting, Stepped};
use reporting::{report_gate, reported};
use tickets::Live;

// On to the successor of the phase, and the count of that way is raised.
fn advanced(mut r: Record) -> Record
    requires { (r.forward ≤ 5) × (r.back ≤ 4) }
    ensures { result ≡ advanced r }
{
    let p = r.phase.number;
    let Some(next) = r.phase.successor() else {
        return r;
    };
    r.phase = next;
    if p <= Phase::ADOPT {
        r.forward += 1;
        return r;
    }
    r.back += 1;
    r
}

// The phase's work is done.
fn structure_done(r: Record) -> Stepped
    requires { (r.forward ≤ 5) × (r.back ≤ 4) }
    ensures { tells result ≡ structure_done r }
{
    let next = advanced(r);
    if next.phase.boundary() {
        return next.answering(Answer::Finished);
    }
    next.answering(Answer::More)
}

// The refusals of a report of structure work, in their order.
#[tactic(auto, using(bars::proofs::Passing::rows))]
fn structure_gate(
    r: Record,
    found: Findings,
    given: Reporting,
    candidate: usize,
    recovery: usize,
) -> Result<(), Refusal>
    ensures { result ≡ through (gate_of found.sized found.sound r) (report_structure_bars r given.ticket candidate recovery) }
{
    report_gate(r, found, Live::STRUCTURE, given)?;
    gates::bar_payloads(candidate, recovery)
}

// A report of structure work, with the lengths of the candidate and recovery payloads that it stores.
pub fn report_structure(
    r: Record,
    found: Findings,
    given: Reporting,
    candidate: usize,
    recovery: usize,
) -> Stepped
    ensures { tells result ≡ report_structure_step found.sized found.sound r given.ticket given.outcome candidate recovery }
{
    if let Err(why) = structure_gate(r, found, given, candidate, recovery) {
        return r.refuse(why);
    }
    let stored = Record {
        candidate,
        recovery,
        ..r
    };
    let spent = stored.with_ticket(r.serial, Live::None);
    reported(spent, given, structure_done(spent))
}
