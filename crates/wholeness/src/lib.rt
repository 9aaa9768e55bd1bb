// When a record is whole.
#![tactic(auto)]

ghost use Rattle.std.specs.Prelude.{◌≡◌, ◌+◌, eqb};
ghost use Rattle.wholeness.specs.Whole.{lengths_fit, counts_fit, staged_fits, forward_fits, back_fits, restoring_fits, live_fits, whole};

use phases::Phase;
use record::{MAX, Record};
use tickets::Live;

fn lengths_fit(r: Record) -> bool
    ensures { result ≡ lengths_fit r.accepted r.candidate r.recovery }
{
    (r.accepted <= areas::SIZE) & (r.candidate <= areas::SIZE) & (r.recovery <= areas::SIZE)
}

fn counts_fit(r: Record) -> bool
    ensures { result ≡ counts_fit r.entries r.applied r.attempted }
{
    ((r.entries as usize) <= batch::LIMIT)
        & (r.applied <= r.attempted)
        & ((r.attempted as u64) <= (r.applied as u64) + 1)
        & (r.attempted <= r.entries)
}

fn staged_fits(r: Record) -> bool
    ensures { result ≡ staged_fits r.staged r.revision r.replacements r.phase.number r.entries r.live }
{
    if r.staged {
        (r.revision < MAX) & (r.replacements < MAX)
    } else {
        (r.phase.number == Phase::NONE) & (r.entries == 0) & (r.live == Live::None)
    }
}

fn forward_fits(r: Record) -> bool
    ensures { result ≡ forward_fits r.phase.number r.forward }
{
    let f = r.forward;
    match r.phase.number {
        Phase::NONE | Phase::REMOVE => f == 0,
        Phase::SETTLE_REMOVED => f == 1,
        Phase::MOUNT => f == 2,
        Phase::SETTLE_MOUNTED => f == 3,
        Phase::UPDATES | Phase::ADOPT => f == 4,
        Phase::READY => f == 5,
        Phase::UNDO => (f == 4) | (f == 5),
        _ => f <= 5,
    }
}

fn back_fits(r: Record) -> bool
    ensures { result ≡ back_fits r.phase.number r.back }
{
    let b = r.back;
    match r.phase.number {
        Phase::NONE..=Phase::RECOVER_REMOVE => b == 0,
        Phase::RECOVER_SETTLE_REMOVED => b == 1,
        Phase::RECOVER_MOUNT => b == 2,
        Phase::RECOVER_SETTLE_MOUNTED => b == 3,
        Phase::RECOVERED => b == 4,
        _ => false,
    }
}

fn restoring_fits(r: Record) -> bool
    ensures { result ≡ restoring_fits r.restoring r.phase.number r.entries r.applied r.attempted }
{
    let attempted = !r.restoring | (r.attempted == r.entries);
    match r.phase.number {
        Phase::NONE => attempted,
        Phase::REMOVE..=Phase::SETTLE_MOUNTED => attempted & !r.restoring & (r.attempted == 0),
        Phase::UPDATES => {
            attempted & !r.restoring & ((r.applied < r.entries) | (r.entries == 0))
        }
        Phase::ADOPT | Phase::READY => attempted & !r.restoring & (r.applied == r.entries),
        Phase::UNDO => attempted & r.restoring & (0 < r.entries),
        _ => attempted & r.restoring & (r.entries == 0),
    }
}

// Whether a count is one past another.
fn is_next(n: u32, m: u32) -> bool
    ensures { result ≡ eqb m (n + 1) }
{
    (m as u64) == (n as u64) + 1
}

fn live_fits(r: Record) -> bool
    ensures { result ≡ live_fits r.live r.serial r.restoring r.phase.number r.entries r.applied r.attempted }
{
    let p = r.phase.number;
    let given = (r.live.number() == r.serial) & (1 <= r.serial);
    match r.live {
        Live::None => true,
        Live::Structure(_) => given & r.phase.has_successor(),
        Live::Update(_) => {
            given
                & ((p == Phase::NONE) | (p == Phase::UPDATES))
                & !r.restoring
                & is_next(r.applied, r.attempted)
        }
        Live::Rollback(_) => given & r.restoring & (0 < r.entries),
    }
}

// Whether the record is whole, as document 01 lists it; any other is Damaged.
pub fn whole(r: Record) -> bool
    ensures { result ≡ whole r }
{
    lengths_fit(r)
        & counts_fit(r)
        & staged_fits(r)
        & (r.phase.number <= Phase::RECOVERED)
        & forward_fits(r)
        & back_fits(r)
        & restoring_fits(r)
        & live_fits(r)
}
