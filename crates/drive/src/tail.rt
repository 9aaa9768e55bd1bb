// The calls of the tail table, on the words that are lent of it and the count of used records that is held. Finding and moving are given
// the record that the driver holds, beside their stamp.
use super::held::{Held, part};
use commands::Tailing;
use replies::Reply;
use step_stamps::SaveStamp;
use tail_answers::{Finding, TailRefusal};
use tail_replies::{of_finding, of_verdict};
use tail_table::{Claim, File, Tail};
use text::front;

impl Held {
    fn claim(&self, domain: u64, stamp: SaveStamp) -> Claim {
        Claim {
            record: self.record,
            domain,
            stamp,
        }
    }

    // A call that answers how many records are in use after it; a refused one leaves them.
    fn counted(&mut self, done: Result<usize, TailRefusal>) -> Reply {
        of_verdict(done.map(|count| self.used = count))
    }

    fn find_tail(
        &self,
        structs: bool,
        file: File,
        size: u64,
        by: Claim,
    ) -> Result<Finding, TailRefusal> {
        let words = front(&self.tails, self.lent.tails);
        if structs {
            tail_rows::find(words, self.used, file, size, by)
        } else {
            tails::find(words, self.used, file, size, by)
        }
    }

    fn move_tail(&mut self, structs: bool, tail: Tail, by: Claim) -> Result<(), TailRefusal> {
        let words = part(&mut self.tails, self.lent.tails);
        if structs {
            tail_rows::move_offset(words, self.used, tail, by)
        } else {
            tails::move_offset(words, self.used, tail, by)
        }
    }

    fn add_tail(&mut self, tail: Tail) -> Result<usize, TailRefusal> {
        tails::add(part(&mut self.tails, self.lent.tails), self.used, tail)
    }

    fn remove_tail(&mut self, file: File) -> Result<usize, TailRefusal> {
        tails::remove(part(&mut self.tails, self.lent.tails), self.used, file)
    }

    pub(crate) fn tail(&mut self, which: Tailing) -> Reply {
        match which {
            Tailing::Add(tail) => {
                let done = self.add_tail(tail);
                self.counted(done)
            }
            Tailing::Remove(file) => {
                let done = self.remove_tail(file);
                self.counted(done)
            }
            Tailing::Find {
                structs,
                file,
                size,
                domain,
                stamp,
            } => of_finding(self.find_tail(structs, file, size, self.claim(domain, stamp))),
            Tailing::Move {
                structs,
                tail,
                domain,
                stamp,
            } => {
                let by = self.claim(domain, stamp);
                of_verdict(self.move_tail(structs, tail, by))
            }
        }
    }
}
