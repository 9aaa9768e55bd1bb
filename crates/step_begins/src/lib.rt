// Beginning a transaction, and editing what is staged, as steps on the record alone. Payloads are known by their lengths.
#![tactic(auto)]

ghost use Rattle.std.specs.Prelude.{◌≡◌, ◌≤◌};
ghost use Rattle.batch.specs.Batch.{limit};
ghost use Rattle.record.specs.Answers.{tells};
ghost use Rattle.step_begins.specs.Beginning.{first_phase, begun, begin_bars, begin_step, edit_bars, edit_step};
ghost use Rattle.bars.specs.Bars.{through};
ghost use Rattle.gates.specs.Gates.{gate_of};

use answers::{Answer, Refusal, Was};
use bars::bar;
use phases::Phase;
use record::{Beginning, Findings, Record, Stepped};
use tickets::Live;

// A staged record in a first phase, with every count 0 but the entries.
fn begun(r: Record, phase: u8, given: Beginning) -> Record
    requires { given.actions ≤ limit }
    ensures { result ≡ begun phase given r }
{
    let staged = Record {
        candidate: given.candidate,
        recovery: given.recovery,
        staged: true,
        phase: Phase { number: phase },
        forward: 0,
        back: 0,
        entries: given.actions as u32,
        applied: 0,
        attempted: 0,
        restoring: false,
        ..r
    };
    staged.with_ticket(r.serial, Live::None)
}

// The first phase: none for an update-only transaction, Remove for a structural one.
fn first_phase(structural: bool) -> u8
    ensures { result ≡ first_phase structural }
{
    if structural {
        Phase::REMOVE
    } else {
        Phase::NONE
    }
}

// The refusals of a begin, in their order.
#[tactic(auto, using(bars::proofs::Passing::rows))]
fn begin_gate(r: Record, found: Findings, given: Beginning) -> Result<(), Refusal>
    ensures { result ≡ through (gate_of found.sized found.sound r) (begin_bars r given) }
{
    gates::admit(r, found)?;
    bar(r.staged, Refusal::Pending)?;
    bar(
        (r.revision == record::MAX) | (r.replacements == record::MAX),
        Refusal::Capacity,
    )?;
    gates::bar_payloads(given.candidate, given.recovery)?;
    bar(batch::LIMIT < given.actions, Refusal::TooMany)
}

// Begin, update-only or structural.
pub fn begin(r: Record, found: Findings, structural: bool, given: Beginning) -> Stepped
    ensures { tells result ≡ begin_step found.sized found.sound structural r given }
{
    if let Err(why) = begin_gate(r, found, given) {
        return r.refuse(why);
    }
    let phase = first_phase(structural);
    begun(r, phase, given).answering(Answer::Done(Was::Nothing))
}

// The refusals of an edit, in their order.
#[tactic(auto, using(bars::proofs::Passing::rows))]
fn edit_gate(r: Record, found: Findings, candidate: usize, recovery: usize) -> Result<(), Refusal>
    ensures { result ≡ through (gate_of found.sized found.sound r) (edit_bars r candidate recovery) }
{
    gates::admit(r, found)?;
    bar(!r.staged, Refusal::Idle)?;
    gates::bar_payloads(candidate, recovery)
}

// Both payloads are replaced; all else, the phase included, is kept.
pub fn edit(r: Record, found: Findings, candidate: usize, recovery: usize) -> Stepped
    ensures { tells result ≡ edit_step found.sized found.sound r candidate recovery }
{
    if let Err(why) = edit_gate(r, found, candidate, recovery) {
        return r.refuse(why);
    }
    let edited = Record {
        candidate,
        recovery,
        ..r
    };
    edited.answering(Answer::Done(Was::Nothing))
}
