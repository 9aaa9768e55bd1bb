// When a record is complete.
#![tactic(auto)]

ghost use Rattle.std.specs.Prelude.{◌≡◌};
ghost use Rattle.completeness.specs.Complete.{complete};

use record::Record;

// Every action is applied, and nothing is being undone.
pub fn complete(r: Record) -> bool
    ensures { result ≡ complete r }
{
    !r.restoring & (r.applied == r.entries)
}
