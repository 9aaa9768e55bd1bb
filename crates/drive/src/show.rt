// `show`: digests of all that the driver holds, and the count of used tail records.
use super::held::Held;
use digest_lines::Digests;
use digests::{digest, digest_words};

impl Held {
    pub(crate) fn digests(&self) -> Digests {
        Digests {
            accepted: digest(&self.accepted),
            candidate: digest(&self.candidate),
            recovery: digest(&self.recovery),
            exchange: digest(&self.exchange),
            table: digest_words(&self.table),
            log: digest_words(&self.log),
            groups: digest(&self.groups),
            status: digest(&self.status),
            used: self.used as u64,
            tails: digest_words(&self.tails),
        }
    }
}
