// A stamp, and checking one: they are lent nothing, and each is its step.
#![tactic(auto)]

ghost use Rattle.std.specs.Prelude.{◌≡◌};
ghost use Rattle.record.specs.Answers.{told};
ghost use Rattle.step_stamps.specs.Stamping.{says_stamping, says_checked};
ghost use Rattle.calls.specs.Lending.{leaves_of};
ghost use Rattle.calls.specs.Lending.Lending.{stamp, check};

use answers::Refusal;
use record::Record;
use step_stamps::SaveStamp;

// A stamp of the accepted settings, for a domain.
pub fn stamp(r: Record, domain: u64) -> Result<SaveStamp, Refusal>
    ensures { told (says_stamping result) r ≡ (leaves_of r (stamp domain)).told }
{
    step_stamps::stamp(r, domain)
}

// Whether a stamp still passes.
pub fn check(r: Record, domain: u64, given: SaveStamp) -> Result<bool, Refusal>
    ensures { told (says_checked result) r ≡ (leaves_of r (check domain given)).told }
{
    step_stamps::check(r, domain, given)
}
