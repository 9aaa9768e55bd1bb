// The commands that set what is held: one element, lent or not, and a payload in the exchange area.
use super::held::Held;
use holdings::Area;

// A value that is past a byte, which no command has, is left out.
fn put_byte(bytes: &mut [u8], at: usize, value: u64) {
    if let (Some(byte), Ok(value)) = (bytes.get_mut(at), u8::try_from(value)) {
        *byte = value;
    }
}

// Not one function with `put_byte`: no value is past a word.
fn put_word(words: &mut [u64], at: usize, value: u64) {
    if let Some(word) = words.get_mut(at) {
        *word = value;
    }
}

impl Held {
    pub(crate) fn put(&mut self, area: Area, at: usize, value: u64) {
        match area {
            Area::Accepted => put_byte(&mut self.accepted, at, value),
            Area::Candidate => put_byte(&mut self.candidate, at, value),
            Area::Recovery => put_byte(&mut self.recovery, at, value),
            Area::Exchange => put_byte(&mut self.exchange, at, value),
            Area::Table => put_word(&mut self.table, at, value),
            Area::Log => put_word(&mut self.log, at, value),
            Area::Groups => put_byte(&mut self.groups, at, value),
            Area::Status => put_byte(&mut self.status, at, value),
            Area::Tails => put_word(&mut self.tails, at, value),
        }
    }
}
