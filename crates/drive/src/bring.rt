// The calls that bring payloads in: open, begin, begin structural, edit and report structure. Each makes the payloads and the words that
// its line names, in scratch, and then the call on what is lent: where no log is lent it goes to the transaction itself, and where one
// is lent, all but an edit to the recorder. That is a match in each call, here and in end.rt and work.rt: closures for the two sides would
// take the same areas twice.
use super::held::{Held, part};
use commands::{Bringing, Payloads};
use record::{Opening, Reporting, Stepped};
use seeds::{Seeded, payload, words};

impl Held {
    pub(crate) fn open(&mut self, given: Opening, named: Seeded) -> Stepped {
        let accepted = part(&mut self.accepted, self.lent.accepted);
        let new = payload(&mut self.scratch.candidate, named);
        match part(&mut self.log, self.lent.log) {
            [] => transaction::open(given, accepted, new),
            log => recorder::open(given, log, accepted, new),
        }
    }

    // A begin, structural or not.
    fn begin(&mut self, structural: bool, named: Payloads, actions: Seeded) -> Stepped {
        let candidate = part(&mut self.candidate, self.lent.candidate);
        let recovery = part(&mut self.recovery, self.lent.recovery);
        let table = part(&mut self.table, self.lent.table);
        let new = payload(&mut self.scratch.candidate, named.candidate);
        let old = payload(&mut self.scratch.recovery, named.recovery);
        let pairs = words(&mut self.scratch.pairs, actions);
        let r = self.record;
        match part(&mut self.log, self.lent.log) {
            [] => transaction::begin_as(structural, r, candidate, recovery, table, new, old, pairs),
            log => recorder::begin_as(
                structural, r, log, candidate, recovery, table, new, old, pairs,
            ),
        }
    }

    fn edit(&mut self, named: Payloads) -> Stepped {
        let candidate = part(&mut self.candidate, self.lent.candidate);
        let recovery = part(&mut self.recovery, self.lent.recovery);
        let new = payload(&mut self.scratch.candidate, named.candidate);
        let old = payload(&mut self.scratch.recovery, named.recovery);
        transaction::edit(self.record, candidate, recovery, new, old)
    }

    fn report_structure(&mut self, given: Reporting, named: Payloads) -> Stepped {
        let candidate = part(&mut self.candidate, self.lent.candidate);
        let recovery = part(&mut self.recovery, self.lent.recovery);
        let new = payload(&mut self.scratch.candidate, named.candidate);
        let old = payload(&mut self.scratch.recovery, named.recovery);
        let r = self.record;
        match part(&mut self.log, self.lent.log) {
            [] => transaction::report_structure(r, given, candidate, recovery, new, old),
            log => recorder::report_structure(r, given, log, candidate, recovery, new, old),
        }
    }

    pub(crate) fn bring(&mut self, named: Payloads, call: Bringing) -> Stepped {
        match call {
            Bringing::Begin { structural, pairs } => self.begin(structural, named, pairs),
            Bringing::Edit => self.edit(named),
            Bringing::ReportStructure(given) => self.report_structure(given, named),
        }
    }
}
