// What a call that is not refused puts into what it is lent: a payload, pairs, or the payload of one action. Each function is handed what
// the call's step told, writes bytes or words unless that is a refusal, and hands it back. There is no one function with a closure for what is written: its clause
// would tell of what is lent by the closure's state, and be longer than these three.
#![tactic(auto)]

ghost use Rattle.std.specs.Prelude.{◌≡◌, ◌∷◌, []};
ghost use Rattle.areas.specs.Areas.{copied};
ghost use Rattle.batch.specs.Batch.{pairs_in, stored};
ghost use Rattle.record.specs.Answers.{tells};
ghost use Rattle.record.specs.Leaves.{leaves, moving};

use record::Stepped;

// A payload is copied into an area.
pub fn payload(step: Stepped, area: &mut [u8], payload: &[u8]) -> Stepped
    ensures { leaves (tells result) (area.new ∷ [])
        ≡ moving (tells step) (area.old ∷ []) (copied payload.now area.old ∷ []) }
{
    if !step.is_refused() {
        areas::copy_bytes(area, payload);
    }
    step
}

// The pairs of a batch are put into the table.
pub fn pairs(step: Stepped, table: &mut [u64], pairs: &[u64]) -> Stepped
    ensures { leaves (tells result) (table.new ∷ [])
        ≡ moving (tells step) (table.old ∷ []) (pairs_in pairs.now table.old ∷ []) }
{
    if !step.is_refused() {
        batch::put_pairs(table, pairs);
    }
    step
}

// The payload of one action is stored in the table.
pub fn store(step: Stepped, table: &mut [u64], action: u32, payload: u64) -> Stepped
    ensures { leaves (tells result) (table.new ∷ [])
        ≡ moving (tells step) (table.old ∷ []) (stored action payload table.old ∷ []) }
{
    if !step.is_refused() {
        batch::store(table, action, payload);
    }
    step
}
