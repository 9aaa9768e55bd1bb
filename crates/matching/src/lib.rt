// Reading a line by a template. A capital in a template stands for a number in decimal, and says its range: N any u64, L a payload's
// length, C a count of words, S a seed, O an outcome, F a flag, K a kind of ticket, U a field of 8 bits, D one of 32. B stands for
// the letter of an area, and is read as its place among them. Every other byte stands for itself; a newline ends the template. No
// function asks anything of its caller: numbers past the most that a template has are left out.
#![tactic(auto)]

ghost use Rattle.std.specs.Prelude.{◌≡◌, ◌==◌, position};
ghost use Rattle.numbers.specs.Reading.{number_at};
ghost use Rattle.matching.specs.Templates.{most_at, letters, letter_of, taken_of, taken_at, kept, fits_at};

use holdings::{HELD_AREA, HELD_TABLE};
use numbers::number;
use rows::{TOP8, TOP32};
use tickets::Live;

// The most numbers that a template has: those of a record.
pub const NUMBERS: usize = rows::FIELDS;

// The largest seed of a payload or of words.
const SEED: u64 = 1000000;

// The last outcome, Done.
const OUTCOME: u64 = 2;

// The last kind of a live ticket.
const KIND: u64 = Live::ROLLBACK as u64;

// What the line has for one byte of the template, a number or that byte itself; and the place after it.
#[derive(Clone, Copy)]
struct Taken {
    number: Option<u64>,
    next: usize,
}

// The numbers that were read so far, with zeros after them.
#[derive(Clone, Copy)]
struct Numbers {
    row: [u64; NUMBERS],
    count: usize,
}

impl Numbers {
    // The number goes to its place, if there is one.
    #[tactic(auto, unfolding(crate::specs::Templates::kept, choice::specs::Pick::pick))]
    fn keep(&mut self, value: u64)
        ensures { self.new ≡ kept self.old value }
    {
        if self.count < NUMBERS {
            self.row[self.count] = value;
            self.count += 1;
        }
    }
}

// The largest number that may stand where the template has this capital.
#[tactic(auto, unfolding(crate::specs::Templates::most_at, choice::specs::Pick::pick))]
fn most(mark: u8) -> u64
    ensures { result ≡ most_at mark }
{
    match mark {
        b'L' => HELD_AREA as u64,
        b'C' => HELD_TABLE as u64,
        b'S' => SEED,
        b'O' => OUTCOME,
        b'F' => 1,
        b'K' => KIND,
        b'U' => TOP8,
        b'D' => TOP32,
        _ => u64::MAX,
    }
}

// The place of a byte among the letters of the areas.
fn place(byte: u8) -> Option<usize>
    ensures { result ≡ position (λ letter. byte == letter) letters }
{
    b"acrxtlgsf".iter().position(|letter| byte == *letter)
}

fn letter(byte: u8, next: usize) -> Option<Taken>
    ensures { result ≡ letter_of byte next }
{
    let place = place(byte)?;
    Some(Taken {
        number: Some(place as u64),
        next,
    })
}

fn decimal(line: &[u8], at: usize, mark: u8) -> Option<Taken>
    ensures { result ≡ taken_of (number_at line.now at (most_at mark)) }
{
    let read = number(line, at, most(mark))?;
    Some(Taken {
        number: Some(read.value),
        next: read.next,
    })
}

fn take(line: &[u8], at: usize, mark: u8) -> Option<Taken>
    ensures { result ≡ taken_at line.now at mark }
{
    let byte = *line.get(at)?;
    let next = at + 1;
    if mark == b'B' {
        return letter(byte, next);
    }
    if mark.is_ascii_uppercase() {
        return decimal(line, at, mark);
    }
    (byte == mark).then_some(Taken { number: None, next })
}

// The numbers of a line that is as the template says, up to a newline and with no byte too many, or those that were read of a line that is
// not; in order, with zeros after them.
pub fn fits(line: &[u8], template: &[u8]) -> Result<[u64; NUMBERS], [u64; NUMBERS]>
    ensures { result ≡ fits_at line.now template.now }
{
    let mut numbers = Numbers {
        row: [0; NUMBERS],
        count: 0,
    };
    let mut at = 0;
    for mark in template {
        if *mark == b'\n' {
            return (at == line.len()).then_some(numbers.row).ok_or(numbers.row);
        }
        let Some(taken) = take(line, at, *mark) else {
            return Err(numbers.row);
        };
        if let Some(value) = taken.number {
            numbers.keep(value);
        }
        at = taken.next;
    }
    Err(numbers.row)
}
