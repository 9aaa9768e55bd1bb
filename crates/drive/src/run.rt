// What a command does to what the driver holds, and what is told of it.
use super::held::Held;
use super::telling::Told;
use commands::{Command, Planning};
use mark_replies::of_mark;
use record::Stepped;
use replies::{Reply, of_answer};
use seeds::fill;
use stamp_replies::{of_check, of_stamp};

impl Held {
    // A call of the transaction: the record that it left is kept, and its answer is told.
    fn keep(&mut self, stepped: Stepped) -> Told {
        self.record = stepped.state;
        Told::Reply(of_answer(stepped.answer))
    }

    // Stamps and their checks.
    fn plan(&self, which: Planning) -> Reply {
        match which {
            Planning::Stamp(domain) => of_stamp(transaction::stamp(self.record, domain)),
            Planning::Check { domain, stamp } => {
                of_check(transaction::check(self.record, domain, stamp))
            }
        }
    }

    // The commands that are not answered.
    fn prepare(&mut self, command: Command) {
        match command {
            Command::Lend { area, count } => self.lent.set(area, count),
            Command::Put { area, at, value } => self.put(area, at, value),
            Command::Fill(named) => fill(&mut self.exchange, named),
            Command::Record(given) => self.record = given,
            Command::Tails(count) => self.used = count,
            _ => (),
        }
    }

    pub(crate) fn run(&mut self, command: Command) -> Told {
        match command {
            Command::Bad => Told::Bad,
            Command::Show => Told::Shown(self.digests()),
            Command::Open { opening, payload } => {
                let stepped = self.open(opening, payload);
                self.keep(stepped)
            }
            Command::Bring { payloads, call } => {
                let stepped = self.bring(payloads, call);
                self.keep(stepped)
            }
            Command::Work(which) => {
                let stepped = self.work(which);
                self.keep(stepped)
            }
            Command::End(which) => {
                let stepped = self.end(which);
                self.keep(stepped)
            }
            Command::Plan(which) => Told::Reply(self.plan(which)),
            Command::Mark(which) => Told::Reply(of_mark(self.mark(which))),
            Command::Tail(which) => Told::Reply(self.tail(which)),
            _ => {
                self.prepare(command);
                Told::Nothing
            }
        }
    }
}
