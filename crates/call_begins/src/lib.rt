// Beginning a transaction of either kind, with what is lent: a name for each, as document 01 has it, over the one function with a flag.
#![tactic(auto)]

ghost use Rattle.std.specs.Prelude.{◌≡◌, ◌∷◌, [], true, false};
ghost use Rattle.record.specs.Answers.{tells};
ghost use Rattle.record.specs.Leaves.{leaves};
ghost use Rattle.calls.specs.Lending.{leaves_of};
ghost use Rattle.calls.specs.Lending.Lending.{begin};

use call_stages::begin_as;
use record::{Record, Stepped};

// An update-only transaction.
pub fn begin(
    r: Record,
    candidate: &mut [u8],
    recovery: &mut [u8],
    table: &mut [u64],
    new: &[u8],
    old: &[u8],
    pairs: &[u64],
) -> Stepped
    ensures { leaves (tells result) (candidate.new ∷ recovery.new ∷ table.new ∷ [])
        ≡ leaves_of r (begin false candidate.old recovery.old table.old
        new.now old.now pairs.now) }
{
    begin_as(false, r, candidate, recovery, table, new, old, pairs)
}

// A structural transaction: the phases 1 to 7 stand about its updates.
pub fn begin_structural(
    r: Record,
    candidate: &mut [u8],
    recovery: &mut [u8],
    table: &mut [u64],
    new: &[u8],
    old: &[u8],
    pairs: &[u64],
) -> Stepped
    ensures { leaves (tells result) (candidate.new ∷ recovery.new ∷ table.new ∷ [])
        ≡ leaves_of r (begin true candidate.old recovery.old table.old
        new.now old.now pairs.now) }
{
    begin_as(true, r, candidate, recovery, table, new, old, pairs)
}
