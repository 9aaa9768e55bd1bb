// Decimal numbers that are read, in lent bytes: one or more digits, leading zeros allowed, of which no beginning is past the range.
// Nothing here reads a file, and no function asks anything of its caller.
#![tactic(auto)]

ghost use Rattle.std.specs.Prelude.{◌≡◌};
ghost use Rattle.numbers.specs.Reading.{grown, number_at};

// A number that stands at a place, with the place after it.
#[derive(Clone, Copy, PartialEq, Eq)]
pub struct Read {
    pub value: u64,
    pub next: usize,
}

// The value with the digit at its end, unless this is past `most`; a number past a u64 is past it too.
fn with_digit(value: u64, digit: u64, most: u64) -> Option<u64>
    ensures { result ≡ grown value digit most }
{
    let more = value.checked_mul(10)?.checked_add(digit)?;
    (more <= most).then_some(more)
}

// The number that starts at a place, of at most `most`; none where no digit stands there, or a number past it.
pub fn number(line: &[u8], from: usize, most: u64) -> Option<Read>
    ensures { result ≡ number_at line.now from most }
{
    let mut value = 0;
    // A range of places, not an iterator: the answer has the place where the number ends.
    for i in from..line.len() {
        let byte = line[i];
        if !byte.is_ascii_digit() {
            return (from < i).then_some(Read { value, next: i });
        }
        value = with_digit(value, u64::from(byte - b'0'), most)?;
    }
    (from < line.len()).then_some(Read {
        value,
        next: line.len(),
    })
}
