// The plain engine: five questions of an opening and the first events of an input log, each answered out of the whole list, anew. It keeps
// nothing between questions, has no record, and calls no step: it goes through the list from the first event on, finds out by itself which
// calls are taken, and counts them. What it finds is the same that the record says (the crate `plain_laws`).
#![tactic(auto)]

mod questions;
mod taking;

ghost use Rattle.std.specs.Prelude.{◌≡◌, true, ◌≤◌};
ghost use Rattle.log_layout.specs.Log.{room, most_room, input_sound};
ghost use Rattle.plain.specs.Taking.{opened};
ghost use Rattle.plain.specs.Looking.{looks, finding, asked};

use answers::Refusal;
use input_events::{Fault, event_at};
use record::Opening;

// What can be asked. Yes is 1 and no is 0; the due asking is 1 structure, 2 update, 3 rollback, and 0 where none is due.
#[derive(Clone, Copy)]
pub enum Question {
    Phase,
    CommitAllowed,
    RecoveryAllowed,
    DueAsking,
    Revision,
}

// What is found: the answer, or why there is none.
pub type Finding = Result<u64, Fault>;

// What was taken of a list. Of the chain: its revision and count of replacements, and the number of the last ticket with the work that it
// is open for, which is none once it is spent. Of the transaction, since the last begin that was taken: whether it runs, is structural,
// and how many updates it has; whether its updates are closed, an asking for one being answered that there is none; whether a rollback was granted, how many
// updates were started; and the Done reports that were taken, until a rollback was granted and since. It is public for the laws of
// `plain_laws` to name, and no public function takes or gives one.
// No ghost field bounds it: each event that is taken adds to a count, so the bound is that of a list's length, and the laws make any.
#[derive(Clone, Copy)]
pub struct Taken {
    pub revision: u64,
    pub replacements: u64,
    pub serial: u64,
    // A number of `Live`'s, with which the laws compare the work of the record's ticket.
    pub live: u8,
    pub running: bool,
    pub structural: bool,
    pub size: u64,
    pub closed: bool,
    pub turned: bool,
    pub started: u64,
    pub done: u64,
    pub undone: u64,
}

// Goes through the first events of a sound log, and then answers.
fn look(question: Question, given: Opening, words: &[u64], events: usize) -> Finding
    requires { (input_sound words.now ≡ true) × (room words.now ≤ most_room) }
    ensures { result ≡ finding question (looks events words.now 0 (opened given)) }
{
    let mut taken = Taken::opened(given);
    // By number, not over chunks of words: a bad event is named by its number.
    for at in 0..(words[0] as usize).min(events) {
        let Some(call) = event_at(words, at).call() else {
            return Err(Fault::BadEvent(at));
        };
        taken = taken.take(call);
    }
    Ok(taken.answer(question))
}

// The answer to a question after the first events of an input log.
pub fn ask(question: Question, given: Opening, words: &[u64], events: usize) -> Finding
    ensures { result ≡ asked question given words.now events }
{
    if !log_layout::input_sized(words.len()) {
        return Err(Fault::Refused(Refusal::BadArea));
    }
    if !log_layout::input_sound(words) {
        return Err(Fault::Refused(Refusal::Damaged));
    }
    look(question, given, words, events)
}
