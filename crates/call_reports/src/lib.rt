// The reports of an update and of an undoing, each with the payload that it stores. Two functions, not a generic one: they have in common
// only their calls of `Findings::of` and `moves::store`; step and place differ.
#![tactic(auto)]

ghost use Rattle.std.specs.Prelude.{◌≡◌, ◌∷◌, []};
ghost use Rattle.record.specs.Answers.{tells};
ghost use Rattle.record.specs.Leaves.{leaves};
ghost use Rattle.calls.specs.Lending.{leaves_of};
ghost use Rattle.calls.specs.Lending.Lending.{report};
ghost use Rattle.calls.specs.Lending.Stored.{updated, rolledBack};

use record::{Findings, Record, Reporting, Stepped};

// A report of an update, with the payload of the action number applied.
pub fn report_update(r: Record, given: Reporting, table: &mut [u64], payload: u64) -> Stepped
    ensures { leaves (tells result) (table.new ∷ [])
        ≡ leaves_of r (report (updated table.old payload) given.ticket given.outcome) }
{
    let found = Findings::of(batch::is_sized(table.len()));
    let stepped = step_updates::report_update(r, found, given);
    moves::store(stepped, table, r.applied, payload)
}

// A report of an undoing, with the payload of the last action.
pub fn report_rollback(r: Record, given: Reporting, table: &mut [u64], payload: u64) -> Stepped
    ensures { leaves (tells result) (table.new ∷ [])
        ≡ leaves_of r (report (rolledBack table.old payload) given.ticket given.outcome) }
{
    let found = Findings::of(batch::is_sized(table.len()));
    let stepped = step_undos::report_rollback(r, found, given);
    moves::store(stepped, table, r.entries.saturating_sub(1), payload)
}
