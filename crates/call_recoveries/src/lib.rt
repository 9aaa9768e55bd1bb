// Ending a transaction by a recovery. Areas are exchanged or copied whole, so that what was accepted is handed back.
#![tactic(auto)]

ghost use Rattle.std.specs.Prelude.{◌≡◌, ◌∷◌, []};
ghost use Rattle.record.specs.Answers.{tells};
ghost use Rattle.record.specs.Leaves.{leaves};
ghost use Rattle.calls.specs.Lending.{leaves_of};
ghost use Rattle.calls.specs.Lending.Lending.{recover, recover_retained};

use record::{Findings, Record, Stepped};

// The snapshot in the exchange area becomes the accepted payload.
pub fn recover(r: Record, accepted: &mut [u8], exchange: &mut [u8], length: usize) -> Stepped
    ensures { leaves (tells result) (accepted.new ∷ exchange.new ∷ [])
        ≡ leaves_of r (recover accepted.old exchange.old length) }
{
    let found = Findings::of(areas::is_sized(accepted.len()) & areas::is_sized(exchange.len()));
    let stepped = step_recoveries::recover(r, found, length);
    exchanges::exchange(stepped, accepted, exchange)
}

// The retained recovery payload becomes the accepted one, and stays; what was accepted is handed back in the exchange area.
pub fn recover_retained(
    r: Record,
    accepted: &mut [u8],
    recovery: &[u8],
    exchange: &mut [u8],
) -> Stepped
    ensures { leaves (tells result) (accepted.new ∷ recovery.now ∷ exchange.new ∷ [])
        ≡ leaves_of r (recover_retained accepted.old recovery.now exchange.old) }
{
    let found = Findings::of(
        areas::is_sized(accepted.len())
            & areas::is_sized(recovery.len())
            & areas::is_sized(exchange.len()),
    );
    let stepped = step_recoveries::recover_retained(r, found);
    exchanges::replace(stepped, accepted, recovery, exchange)
}
