// The asks: they are lent nothing, and each is its step.
#![tactic(auto)]

ghost use Rattle.std.specs.Prelude.{◌≡◌};
ghost use Rattle.record.specs.Answers.{tells};
ghost use Rattle.calls.specs.Calls.Work.{structure, update, rollback};
ghost use Rattle.calls.specs.Lending.{leaves_of};
ghost use Rattle.calls.specs.Lending.Lending.{ask};

use record::{Findings, Record, Stepped};

// A ticket for the structure work of the phase.
pub fn ask_structure(r: Record) -> Stepped
    ensures { tells result ≡ (leaves_of r (ask structure)).told }
{
    step_asks::ask_structure(r, Findings::of(true))
}

// A ticket for the next action.
pub fn ask_update(r: Record) -> Stepped
    ensures { tells result ≡ (leaves_of r (ask update)).told }
{
    step_asks::ask_update(r, Findings::of(true))
}

// A ticket to undo the last action that was attempted.
pub fn ask_rollback(r: Record) -> Stepped
    ensures { tells result ≡ (leaves_of r (ask rollback)).told }
{
    step_rollbacks::ask_rollback(r, Findings::of(true))
}
