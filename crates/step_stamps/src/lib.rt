// Stamps: a plan reviewed under some settings must not be saved over others.
#![tactic(auto)]

ghost use Rattle.std.specs.Prelude.{◌≡◌};
ghost use Rattle.step_stamps.specs.Stamping.{says_stamping, says_checked, stamp_of, stamp_step, check_step};

use answers::Refusal;
use record::Record;

// A save plan's stamp: which domain it was reviewed in, at which revision, and after how many replacements of the settings.
#[derive(Clone, Copy, PartialEq, Eq)]
pub struct SaveStamp {
    pub domain: u64,
    pub revision: u64,
    pub replacements: u64,
}

// The stamp of a record's settings, whether or not one may be taken.
fn stamp_of(r: Record, domain: u64) -> SaveStamp
    ensures { result ≡ stamp_of domain r }
{
    SaveStamp {
        domain,
        revision: r.revision,
        replacements: r.replacements,
    }
}

// A stamp of the settings in force: their revision, and how often they were replaced.
pub fn stamp(r: Record, domain: u64) -> Result<SaveStamp, Refusal>
    ensures { says_stamping result ≡ stamp_step r domain }
{
    if !wholeness::whole(r) {
        return Err(Refusal::Damaged);
    }
    if r.staged {
        return Err(Refusal::Pending);
    }
    Ok(stamp_of(r, domain))
}

// Whether a stamp is still the record's, in a domain.
pub fn check(r: Record, domain: u64, stamp: SaveStamp) -> Result<bool, Refusal>
    ensures { says_checked result ≡ check_step r domain stamp }
{
    if !wholeness::whole(r) {
        return Err(Refusal::Damaged);
    }
    Ok(!r.staged && stamp_of(r, domain) == stamp)
}
