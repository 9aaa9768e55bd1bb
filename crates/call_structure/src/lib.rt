// The report of structure work, with the payloads that it stores.
#![tactic(auto)]

ghost use Rattle.std.specs.Prelude.{◌≡◌, ◌∷◌, []};
ghost use Rattle.record.specs.Answers.{tells};
ghost use Rattle.record.specs.Leaves.{leaves};
ghost use Rattle.calls.specs.Lending.{leaves_of};
ghost use Rattle.calls.specs.Lending.Lending.{report};
ghost use Rattle.calls.specs.Lending.Stored.{structured};

use record::{Findings, Record, Reporting, Stepped};

// A report of structure work, with both payloads as the work has left them.
pub fn report_structure(
    r: Record,
    given: Reporting,
    candidate: &mut [u8],
    recovery: &mut [u8],
    new: &[u8],
    old: &[u8],
) -> Stepped
    ensures { leaves (tells result) (candidate.new ∷ recovery.new ∷ [])
        ≡ leaves_of r (report (structured candidate.old recovery.old new.now old.now)
        given.ticket given.outcome) }
{
    let found = Findings::of(areas::is_sized(candidate.len()) & areas::is_sized(recovery.len()));
    let stepped = step_structure::report_structure(r, found, given, new.len(), old.len());
    let half = moves::payload(stepped, candidate, new);
    moves::payload(half, recovery, old)
}
