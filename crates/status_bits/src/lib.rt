// The bits of an id's group byte and status byte: whether a status call is allowed by them, and the status byte that it leaves.
#![tactic(auto)]

ghost use Rattle.std.specs.Prelude.{◌≡◌};
ghost use Rattle.status_bits.specs.Bits.{IsBit, has, with, allowed, next};

// The bits of a group byte, and the greatest one. Masks, not an enum: a lent byte holds any of them together.
pub const GROUP_LIVE: u8 = 1;

pub const GROUP_SETTLED: u8 = 2;

pub const GROUP_PENDING: u8 = 4;

pub const GROUP_MOST: u8 = GROUP_LIVE + GROUP_SETTLED + GROUP_PENDING;

// The bits of a status byte, and the greatest one.
pub const MARK_LINKED: u8 = 1;

pub const MARK_CANCELLED: u8 = 2;

pub const MARK_INITIALIZED: u8 = 4;

pub const MARK_FINISHED: u8 = 8;

pub const MARK_MOST: u8 = MARK_LINKED + MARK_CANCELLED + MARK_INITIALIZED + MARK_FINISHED;

// The three calls, each with what it is given besides the bytes and the id: linking, whether a domain is present.
#[derive(Clone, Copy)]
pub enum StatusCall {
    Link(bool),
    Initialize,
    Cancel,
}

// Whether the byte has the bit.
fn has(bit: u8, byte: u8) -> bool
    requires { IsBit bit }
    ensures { result ≡ has bit byte }
{
    byte & bit != 0
}

// The byte with the bit, and every other bit as it was.
fn with(bit: u8, byte: u8) -> u8
    requires { IsBit bit }
    ensures { result ≡ with bit byte }
{
    byte | bit
}

// Whether the call is allowed, by the id's two bytes.
pub fn allowed(call: StatusCall, group: u8, mark: u8) -> bool
    ensures { result ≡ allowed call group mark }
{
    match call {
        StatusCall::Link(domain) => domain & has(GROUP_LIVE, group) & !has(MARK_LINKED, mark),
        StatusCall::Initialize => {
            has(MARK_LINKED, mark)
                & has(GROUP_LIVE, group)
                & has(GROUP_SETTLED, group)
                & !has(GROUP_PENDING, group)
        }
        StatusCall::Cancel => has(MARK_LINKED, mark),
    }
}

// The id's next status byte.
pub fn next(call: StatusCall, mark: u8) -> u8
    ensures { result ≡ next call mark }
{
    match call {
        StatusCall::Link(_) => MARK_LINKED,
        StatusCall::Initialize => with(MARK_INITIALIZED, mark),
        StatusCall::Cancel => with(MARK_CANCELLED, mark),
    }
}
