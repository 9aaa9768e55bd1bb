// Areas that change places, when a call is not refused: each function is handed what the call's step told, moves areas whole unless that
// is a refusal, and hands it back. There is no one function with a closure, as in `moves`.
#![tactic(auto)]

ghost use Rattle.std.specs.Prelude.{◌≡◌, ◌∷◌, []};
ghost use Rattle.areas.specs.Areas.{copied, exchanged};
ghost use Rattle.record.specs.Answers.{tells};
ghost use Rattle.record.specs.Leaves.{leaves, moving};

use record::Stepped;

// Two areas change places.
pub fn exchange(step: Stepped, a: &mut [u8], b: &mut [u8]) -> Stepped
    ensures { leaves (tells result) (a.new ∷ b.new ∷ [])
        ≡ moving (tells step) (a.old ∷ b.old ∷ []) (exchanged a.old b.old) }
{
    if !step.is_refused() {
        areas::exchange(a, b);
    }
    step
}

// The accepted area is copied into the exchange area, and then the recovery area into the accepted one.
pub fn replace(step: Stepped, accepted: &mut [u8], recovery: &[u8], exchange: &mut [u8]) -> Stepped
    ensures { leaves (tells result) (accepted.new ∷ recovery.now ∷ exchange.new ∷ [])
        ≡ moving (tells step) (accepted.old ∷ recovery.now ∷ exchange.old ∷ [])
        (copied recovery.now accepted.old ∷ recovery.now
        ∷ copied accepted.old exchange.old ∷ []) }
{
    if !step.is_refused() {
        areas::copy_bytes(exchange, accepted);
        areas::copy_bytes(accepted, recovery);
    }
    step
}
