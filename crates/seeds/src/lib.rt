// The payloads and the words that a script names by a count and a seed. No function asks anything of its caller: what has no room is
// left out.
#![tactic(auto)]

ghost use Rattle.std.specs.Prelude.{◌≡◌, ◌+◌, ◌%◌, ◌<◌, take};
ghost use Rattle.seeds.specs.Seeds.{payload_over, words_over};

use text::front;

#[derive(Clone, Copy)]
pub struct Seeded {
    pub count: usize,
    pub seed: u64,
}

// The byte of a payload after this one. No remainder: by one, each byte waits longer for the byte before it.
fn next(value: u8) -> u8
    ensures { value < 251 → result ≡ (value + 1) % 251 }
{
    if value < 250 { value + 1 } else { 0 }
}

// The start of `bytes` becomes a payload: byte i is (seed + i) mod 251.
pub fn fill(bytes: &mut [u8], named: Seeded)
    ensures { bytes.new ≡ payload_over named.count named.seed bytes.old }
{
    let mut value = (named.seed % 251) as u8;
    // A range, not `iter_mut().take(n)`: once such a borrow is over, a proof knows nothing of the elements; the same below.
    for i in 0..named.count.min(bytes.len()) {
        bytes[i] = value;
        value = next(value);
    }
}

// The start of `words` becomes the words that are named: word i is seed + i. A function of its own beside `fill`: a word is a sum that
// wraps, where a byte comes from the one before it with no division.
fn fill_words(words: &mut [u64], named: Seeded)
    ensures { words.new ≡ words_over named.count named.seed words.old }
{
    for i in 0..named.count.min(words.len()) {
        words[i] = named.seed.wrapping_add(i as u64);
    }
}

// The payload that is named, made at the start of `bytes`.
pub fn payload(bytes: &mut [u8], named: Seeded) -> &[u8]
    ensures { result.now ≡ take named.count (payload_over named.count named.seed bytes.old) }
{
    fill(bytes, named);
    front(bytes, named.count)
}

// The words that are named, made at the start of `words`.
pub fn words(words: &mut [u64], named: Seeded) -> &[u64]
    ensures { result.now ≡ take named.count (words_over named.count named.seed words.old) }
{
    fill_words(words, named);
    front(words, named.count)
}
