// The status part: link, initialize and cancel, over lent group bytes and status bytes. The index is the id.
#![tactic(auto)]

ghost use Rattle.std.specs.Prelude.{◌≡◌};
ghost use Rattle.status_bits.specs.declared.StatusCall.TheVariants.{Link, Initialize, Cancel};
ghost use Rattle.status.specs.Status.{says_marked, leaves_marks, bytes_sound, marks_of};

use answers::Refusal;
use status_bits::{GROUP_MOST, MARK_LINKED, MARK_MOST, StatusCall, allowed, next};

// The most ids that one table holds.
pub const MOST_IDS: usize = 256;

// Whether an id's bytes are in their range. A status byte that is not 0 has the bit of a linked one.
fn bytes_sound(group: u8, mark: u8) -> bool
    ensures { result ≡ bytes_sound group mark }
{
    (group <= GROUP_MOST) & (mark <= MARK_MOST) & ((mark == 0) | (mark & MARK_LINKED != 0))
}

// What the three calls have in common: the lengths, then the id, then that id's bytes, then the call's own test.
fn marks_of(groups: &[u8], status: &mut [u8], id: u64, call: StatusCall) -> Result<(), Refusal>
    ensures { leaves_marks (says_marked result) status.new ≡ marks_of groups.now status.old id call }
{
    let n = status.len();
    if (groups.len() != n) | (n < 1) | (MOST_IDS < n) {
        return Err(Refusal::BadArea);
    }
    if (id == 0) | ((n as u64) <= id) {
        return Err(Refusal::NoStatus);
    }
    let at = id as usize;
    let group = groups[at];
    let mark = status[at];
    if !bytes_sound(group, mark) {
        return Err(Refusal::Damaged);
    }
    if !allowed(call, group, mark) {
        return Err(Refusal::NoStatus);
    }
    status[at] = next(call, mark);
    Ok(())
}

// A live group gets its one status.
pub fn link(groups: &[u8], status: &mut [u8], id: u64, domain: bool) -> Result<(), Refusal>
    ensures { leaves_marks (says_marked result) status.new ≡ marks_of groups.now status.old id (Link domain) }
{
    marks_of(groups, status, id, StatusCall::Link(domain))
}

// A settled group's status is initialized.
pub fn initialize(groups: &[u8], status: &mut [u8], id: u64) -> Result<(), Refusal>
    ensures { leaves_marks (says_marked result) status.new ≡ marks_of groups.now status.old id Initialize }
{
    marks_of(groups, status, id, StatusCall::Initialize)
}

// A linked status is cancelled.
pub fn cancel(groups: &[u8], status: &mut [u8], id: u64) -> Result<(), Refusal>
    ensures { leaves_marks (says_marked result) status.new ≡ marks_of groups.now status.old id Cancel }
{
    marks_of(groups, status, id, StatusCall::Cancel)
}
