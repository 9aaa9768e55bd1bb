// The calls that bring payloads and no actions, with what is lent: opening, and the edit.
#![tactic(auto)]

ghost use Rattle.std.specs.Prelude.{◌≡◌, ◌∷◌, []};
ghost use Rattle.record.specs.Answers.{tells};
ghost use Rattle.record.specs.Leaves.{leaves};
ghost use Rattle.calls.specs.Lending.{leaves_of, unopened};
ghost use Rattle.calls.specs.Lending.Lending.{open_at, edit};

use record::{Findings, Opening, Record, Stepped};

// A new record, with an accepted payload.
pub fn open(given: Opening, accepted: &mut [u8], payload: &[u8]) -> Stepped
    ensures { leaves (tells result) (accepted.new ∷ [])
        ≡ leaves_of unopened (open_at given accepted.old payload.now) }
{
    let stepped = step_opens::open(areas::is_sized(accepted.len()), given, payload.len());
    moves::payload(stepped, accepted, payload)
}

// Replaces both staged payloads.
pub fn edit(r: Record, candidate: &mut [u8], recovery: &mut [u8], new: &[u8], old: &[u8]) -> Stepped
    ensures { leaves (tells result) (candidate.new ∷ recovery.new ∷ [])
        ≡ leaves_of r (edit candidate.old recovery.old new.now old.now) }
{
    let found = Findings::of(areas::is_sized(candidate.len()) & areas::is_sized(recovery.len()));
    let stepped = step_begins::edit(r, found, new.len(), old.len());
    let half = moves::payload(stepped, candidate, new);
    moves::payload(half, recovery, old)
}
