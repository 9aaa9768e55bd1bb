// No code: `specs` has the calls as one type, with one step over it, all that each is lent and leaves, and the kind of its event;
// `proofs` has what is known of an answer that is written, and of one that is not. The contracts of the transaction and of the
// recorder, and every theorem above them, speak of these definitions.
#![tactic(auto)]
