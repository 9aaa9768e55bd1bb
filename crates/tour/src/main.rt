// The README's example, run on the proved calls. A plan is stamped at revision 7. A first reload goes through, and the stamp no
// longer passes. The plan is stamped again at revision 8. The second action of a second reload fails: what was begun is undone and
// the retained payload is recovered. The settings were replaced, so this stamp does not pass either; one that is taken now does.
// What each line says is in tell.rt.
#![tactic(auto)]

mod tell;

use answers::Answer;
use record::{Opening, Record, Stepped};
use std::io;
use tell::{DOMAIN, End, ended, restore, verdict, work};
use transaction::{ACTIONS, AREA, TABLE};

// The word that an action has in the table once it is in place, and the one that it has before that and once it is undone.
const IN_PLACE: u64 = 11;

const AS_BEFORE: u64 = 10;

// What an agent keeps: the record, and what the calls are lent.
#[derive(Drop)]
struct Agent {
    record: Record,
    accepted: [u8; AREA],
    candidate: [u8; AREA],
    recovery: [u8; AREA],
    exchange: [u8; AREA],
    table: [u64; TABLE],
}

impl Agent {
    // The settings in force, at revision 7.
    fn opened() -> Agent {
        let start = Opening {
            revision: 7,
            serial: 0,
            replacements: 0,
        };
        let mut accepted = [0u8; AREA];
        Agent {
            record: transaction::open(start, &mut accepted, &[1; 40]).state,
            accepted,
            candidate: [0; AREA],
            recovery: [0; AREA],
            exchange: [0; AREA],
            table: [0; TABLE],
        }
    }

    // A call was made: its record is the one for the next.
    fn keep(&mut self, called: Stepped) -> Answer {
        self.record = called.state;
        called.answer
    }

    // One action: ask for its ticket, do its work, report what became of it.
    fn update(&mut self, rt: &impl Print, broken: u32) -> io::Result<Answer> {
        let asked = self.keep(transaction::ask_update(self.record));
        let Answer::Ticket { number, item } = asked else {
            return Ok(asked);
        };
        let given = work(rt, number, item, broken)?;
        let reported = transaction::report_update(self.record, given, &mut self.table, IN_PLACE);
        Ok(self.keep(reported))
    }

    // One undoing: ask which action is next, the last that was started, restore it, report it.
    fn undo(&mut self, rt: &impl Print) -> io::Result<Answer> {
        let asked = self.keep(transaction::ask_rollback(self.record));
        let Answer::Ticket { number, item } = asked else {
            return Ok(asked);
        };
        let given = restore(rt, number, item)?;
        let reported = transaction::report_rollback(self.record, given, &mut self.table, AS_BEFORE);
        Ok(self.keep(reported))
    }

    // Every action in turn, until one is not done or none is left.
    fn update_all(&mut self, rt: &impl Print, broken: u32) -> io::Result<Answer> {
        let mut last = self.update(rt, broken)?;
        for _ in 0..ACTIONS {
            if last != Answer::More {
                break;
            }
            last = self.update(rt, broken)?;
        }
        Ok(last)
    }

    // Every undoing in turn, until none is left.
    fn undo_all(&mut self, rt: &impl Print) -> io::Result<()> {
        for _ in 0..ACTIONS {
            if self.undo(rt)? != Answer::More {
                break;
            }
        }
        Ok(())
    }

    // A reload of two actions, to its end: a commit, or a rollback and a recovery.
    fn reload(&mut self, rt: &impl Print, broken: u32) -> io::Result<Answer> {
        let begun = transaction::begin(
            self.record,
            &mut self.candidate,
            &mut self.recovery,
            &mut self.table,
            &[2; 44],
            &[1; 40],
            &[AS_BEFORE; 4],
        );
        self.keep(begun);
        let ended = if self.update_all(rt, broken)? == Answer::Finished {
            transaction::commit(self.record, &mut self.accepted, &mut self.candidate)
        } else {
            self.undo_all(rt)?;
            transaction::recover_retained(
                self.record,
                &mut self.accepted,
                &self.recovery,
                &mut self.exchange,
            )
        };
        Ok(self.keep(ended))
    }

    // A plan is stamped, a reload is run, and the stamp is checked.
    fn reviewed(&mut self, rt: &impl Print, broken: u32, by: End) -> io::Result<()> {
        let plan = transaction::stamp(self.record, DOMAIN);
        let last = self.reload(rt, broken)?;
        ended(rt, by, last)?;
        verdict(rt, self.record, plan)
    }
}

fn main(rt: HostRuntime) -> io::Result<()> {
    let mut agent = Agent::opened();
    agent.reviewed(&rt, 2, End::Commit)?;
    agent.reviewed(&rt, 1, End::Recovery)?;
    let plan = transaction::stamp(agent.record, DOMAIN);
    verdict(&rt, agent.record, plan)
}
