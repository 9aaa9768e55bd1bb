// Asking for tickets, and the reports of updates and rollbacks: where no log is lent they go to the transaction itself, and where one is
// lent to the recorder.
use super::held::{Held, part};
use commands::{Asking, Working};
use record::{Record, Reporting, Stepped};

fn ask_itself(which: Asking, record: Record) -> Stepped {
    match which {
        Asking::Structure => transaction::ask_structure(record),
        Asking::Update => transaction::ask_update(record),
        Asking::Rollback => transaction::ask_rollback(record),
    }
}

fn ask_logged(which: Asking, record: Record, log: &mut [u64]) -> Stepped {
    match which {
        Asking::Structure => recorder::ask_structure(record, log),
        Asking::Update => recorder::ask_update(record, log),
        Asking::Rollback => recorder::ask_rollback(record, log),
    }
}

impl Held {
    fn ask(&mut self, which: Asking) -> Stepped {
        match part(&mut self.log, self.lent.log) {
            [] => ask_itself(which, self.record),
            log => ask_logged(which, self.record, log),
        }
    }

    fn report_update(&mut self, given: Reporting, payload: u64) -> Stepped {
        let table = part(&mut self.table, self.lent.table);
        match part(&mut self.log, self.lent.log) {
            [] => transaction::report_update(self.record, given, table, payload),
            log => recorder::report_update(self.record, given, log, table, payload),
        }
    }

    fn report_rollback(&mut self, given: Reporting, payload: u64) -> Stepped {
        let table = part(&mut self.table, self.lent.table);
        match part(&mut self.log, self.lent.log) {
            [] => transaction::report_rollback(self.record, given, table, payload),
            log => recorder::report_rollback(self.record, given, log, table, payload),
        }
    }

    pub(crate) fn work(&mut self, which: Working) -> Stepped {
        match which {
            Working::Ask(asked) => self.ask(asked),
            Working::Report {
                undoing: true,
                given,
                payload,
            } => self.report_rollback(given, payload),
            Working::Report {
                undoing: false,
                given,
                payload,
            } => self.report_update(given, payload),
        }
    }
}
