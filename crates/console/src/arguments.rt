// What a program is asked by its arguments.
use std::env::FillError;
use std::rt::Env;
use text::front;

// The most bytes that are read of an argument.
const WORD: usize = 4096;

// An argument that is to be a number is none.
#[derive(Clone, Copy)]
pub struct NoNumber;

// Whether there is an argument at a place, the program's own name at 0.
pub fn is_given(rt: &impl Env, place: usize) -> bool {
    !matches!(rt.arg(place, &mut []), Err(FillError::NotPresent))
}

// Whether the one argument is `help`.
pub fn asks_for_help(rt: &impl Env) -> bool {
    let mut word = [0u8; 4];
    match rt.arg(1, &mut word) {
        Ok(length) => (front(&word, length) == b"help".as_slice()) & !is_given(rt, 2),
        Err(_) => false,
    }
}

// The decimal number that a word is.
fn number_of(word: &[u8]) -> Result<u64, NoNumber> {
    match numbers::number(word, 0, u64::MAX) {
        Some(read) if read.next == word.len() => Ok(read.value),
        _ => Err(NoNumber),
    }
}

// The decimal number that is the argument of a place, from 1 on; none where there is no argument.
pub fn number_at(rt: &impl Env, place: usize) -> Result<Option<u64>, NoNumber> {
    let mut word = [0u8; WORD];
    match rt.arg(place, &mut word) {
        Ok(length) => Ok(Some(number_of(front(&word, length))?)),
        Err(FillError::TooLong) => Err(NoNumber),
        Err(FillError::NotPresent) => Ok(None),
    }
}
