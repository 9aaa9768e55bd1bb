// Staging payloads and the pairs of a batch, with what is lent: either begin by its flag.
#![tactic(auto)]

ghost use Rattle.std.specs.Prelude.{◌≡◌, ◌∷◌, []};
ghost use Rattle.record.specs.Answers.{tells};
ghost use Rattle.record.specs.Leaves.{leaves};
ghost use Rattle.calls.specs.Lending.{leaves_of};
ghost use Rattle.calls.specs.Lending.Lending.{begin};

use record::{Beginning, Findings, Record, Stepped};

// Stages a candidate payload (`new`), a recovery payload (`old`) and the pairs of a batch, for a structural transaction or an
// update-only one.
// Areas and payloads are parameters, not a struct: callers keep them in different places, and would make it for this call alone.
pub fn begin_as(
    structural: bool,
    r: Record,
    candidate: &mut [u8],
    recovery: &mut [u8],
    table: &mut [u64],
    new: &[u8],
    old: &[u8],
    pairs: &[u64],
) -> Stepped
    ensures { leaves (tells result) (candidate.new ∷ recovery.new ∷ table.new ∷ [])
        ≡ leaves_of r (begin structural candidate.old recovery.old table.old
        new.now old.now pairs.now) }
{
    let found = Findings::of(
        areas::is_sized(candidate.len())
            & areas::is_sized(recovery.len())
            & batch::is_sized(table.len())
            & batch::are_pairs(pairs.len()),
    );
    let given = Beginning {
        candidate: new.len(),
        recovery: old.len(),
        actions: pairs.len() / 2,
    };
    let stepped = step_begins::begin(r, found, structural, given);
    let half = moves::payload(stepped, candidate, new);
    let staged = moves::payload(half, recovery, old);
    moves::pairs(staged, table, pairs)
}
