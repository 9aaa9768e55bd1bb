// The calls that exchange areas, and those of the status part. Where no log is lent the first go to the transaction itself, and where one
// is lent to the recorder; status calls never do.
use super::held::{Held, part};
use answers::Refusal;
use commands::{Ending, Marking};
use record::Stepped;
use text::front;

impl Held {
    fn commit(&mut self) -> Stepped {
        let accepted = part(&mut self.accepted, self.lent.accepted);
        let candidate = part(&mut self.candidate, self.lent.candidate);
        match part(&mut self.log, self.lent.log) {
            [] => transaction::commit(self.record, accepted, candidate),
            log => recorder::commit(self.record, log, accepted, candidate),
        }
    }

    fn recover(&mut self, length: usize) -> Stepped {
        let accepted = part(&mut self.accepted, self.lent.accepted);
        let exchange = part(&mut self.exchange, self.lent.exchange);
        match part(&mut self.log, self.lent.log) {
            [] => transaction::recover(self.record, accepted, exchange, length),
            log => recorder::recover(self.record, log, accepted, exchange, length),
        }
    }

    fn refresh(&mut self, length: usize) -> Stepped {
        let accepted = part(&mut self.accepted, self.lent.accepted);
        let exchange = part(&mut self.exchange, self.lent.exchange);
        match part(&mut self.log, self.lent.log) {
            [] => transaction::refresh(self.record, accepted, exchange, length),
            log => recorder::refresh(self.record, log, accepted, exchange, length),
        }
    }

    fn recover_retained(&mut self) -> Stepped {
        let accepted = part(&mut self.accepted, self.lent.accepted);
        let recovery = front(&self.recovery, self.lent.recovery);
        let exchange = part(&mut self.exchange, self.lent.exchange);
        match part(&mut self.log, self.lent.log) {
            [] => transaction::recover_retained(self.record, accepted, recovery, exchange),
            log => recorder::recover_retained(self.record, log, accepted, recovery, exchange),
        }
    }

    pub(crate) fn end(&mut self, which: Ending) -> Stepped {
        match which {
            Ending::Commit => self.commit(),
            Ending::RecoverRetained => self.recover_retained(),
            Ending::Snapshot {
                refreshing: true,
                length,
            } => self.refresh(length),
            Ending::Snapshot {
                refreshing: false,
                length,
            } => self.recover(length),
        }
    }

    pub(crate) fn mark(&mut self, which: Marking) -> Result<(), Refusal> {
        let groups = front(&self.groups, self.lent.groups);
        let status = part(&mut self.status, self.lent.status);
        match which {
            Marking::Link { id, domain } => status::link(groups, status, id, domain),
            Marking::Initialize(id) => status::initialize(groups, status, id),
            Marking::Cancel(id) => status::cancel(groups, status, id),
        }
    }
}
