// What an audit writes: the plain engine's five answers after the first events of an input log, as a line. Nothing here reads or writes a
// file: a line is put on a page. No function asks anything of its caller: what has no room is left out.
#![tactic(auto)]

ghost use Rattle.std.specs.Prelude.{◌≡◌};
ghost use Rattle.log_layout.specs.Log.{count};
ghost use Rattle.plain.specs.Looking.{asked};
ghost use Rattle.text.specs.Writing.{put_all};
ghost use Rattle.audit_lines.specs.Audits.{number_of, audited, answers_text};

use input_events::Fault;
use lines::put_line;
use plain::Question;
use record::Opening;
use text::Page;

// The answers to the five questions, in their order.
#[derive(Clone, Copy)]
pub struct Answers {
    pub phase: u64,
    pub commit: u64,
    pub recovery: u64,
    pub due: u64,
    pub revision: u64,
}

// How many events a log's head counts; none where there is no head.
pub fn counted(words: &[u64]) -> usize
    ensures { result ≡ count words.now }
{
    if words.len() == 0 {
        return 0;
    }
    words[0] as usize
}

// The answer to a question, and 0 where there is none.
fn number_after(question: Question, given: Opening, words: &[u64], events: usize) -> u64
    ensures { result ≡ number_of (asked question given words.now events) }
{
    plain::ask(question, given, words, events).unwrap_or(0)
}

// Asks the five questions, where the first has an answer: then all have.
pub fn audit(given: Opening, words: &[u64], events: usize) -> Result<Answers, Fault>
    ensures { result ≡ audited given words.now events }
{
    // By hand, not by `?`, so that the number that a bad event is told by is a value of its own.
    let phase = match plain::ask(Question::Phase, given, words, events) {
        Ok(phase) => phase,
        Err(Fault::BadEvent(number)) => return Err(Fault::BadEvent(number)),
        Err(Fault::Refused(why)) => return Err(Fault::Refused(why)),
    };
    Ok(Answers {
        phase,
        commit: number_after(Question::CommitAllowed, given, words, events),
        recovery: number_after(Question::RecoveryAllowed, given, words, events),
        due: number_after(Question::DueAsking, given, words, events),
        revision: number_after(Question::Revision, given, words, events),
    })
}

// How many events, and the answers after them.
pub fn put_answers(page: &mut Page, events: u64, answers: Answers)
    ensures { page.new ≡ put_all page.old (answers_text events answers) }
{
    let numbers = [
        events,
        answers.phase,
        answers.commit,
        answers.recovery,
        answers.due,
        answers.revision,
    ];
    put_line(page, b"", &numbers);
}
