// What the program is given by its words: a file, which its first word names, and up to five numbers.
use log_files::{BEHIND, Given, WrongWords};
use std::rt::Env;

// The opening, and how many events a portion has.
#[derive(Clone, Copy)]
pub(crate) struct Replaying {
    pub given: Given,
    pub portion: usize,
}

// What is wrong with the words.
#[derive(Clone, Copy)]
pub(crate) enum Wrong {
    Words(WrongWords),
    Portion,
}

// The place of the portion, behind the words of the opening.
const PORTION: usize = BEHIND;

// Events of a portion where no word says it: all that a log has room for.
const ALL: u64 = log_layout::ROOM as u64;

impl From<WrongWords> for Wrong {
    fn from(why: WrongWords) -> Wrong {
        Wrong::Words(why)
    }
}

pub(crate) fn read(rt: &impl Env) -> Result<Replaying, Wrong> {
    let given = log_files::read_words(rt, PORTION + 1)?;
    let portion = log_files::number_or(rt, PORTION, ALL) as usize;
    if portion == 0 {
        return Err(Wrong::Portion);
    }
    Ok(Replaying { given, portion })
}
