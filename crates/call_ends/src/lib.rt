// Ending a transaction by a commit, and refreshing what is accepted. Areas are exchanged whole, so that what was accepted is handed
// back.
#![tactic(auto)]

ghost use Rattle.std.specs.Prelude.{◌≡◌, ◌∷◌, []};
ghost use Rattle.record.specs.Answers.{tells};
ghost use Rattle.record.specs.Leaves.{leaves};
ghost use Rattle.calls.specs.Lending.{leaves_of};
ghost use Rattle.calls.specs.Lending.Lending.{commit, refresh};

use record::{Findings, Record, Stepped};

// The candidate becomes the accepted payload.
pub fn commit(r: Record, accepted: &mut [u8], candidate: &mut [u8]) -> Stepped
    ensures { leaves (tells result) (accepted.new ∷ candidate.new ∷ [])
        ≡ leaves_of r (commit accepted.old candidate.old) }
{
    let found = Findings::of(areas::is_sized(accepted.len()) & areas::is_sized(candidate.len()));
    let stepped = step_ends::commit(r, found);
    exchanges::exchange(stepped, accepted, candidate)
}

// The snapshot in the exchange area replaces the accepted payload; no revision is made.
pub fn refresh(r: Record, accepted: &mut [u8], exchange: &mut [u8], length: usize) -> Stepped
    ensures { leaves (tells result) (accepted.new ∷ exchange.new ∷ [])
        ≡ leaves_of r (refresh accepted.old exchange.old length) }
{
    let found = Findings::of(areas::is_sized(accepted.len()) & areas::is_sized(exchange.len()));
    let stepped = step_ends::refresh(r, found, length);
    exchanges::exchange(stepped, accepted, exchange)
}
