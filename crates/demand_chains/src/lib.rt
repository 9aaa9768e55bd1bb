// No code: demands 2 and 3 over chains of calls. `specs` has chains, what a transaction's reports are for in the fixed order, and what
// the demands say of a chain's record and of what the watcher knows; `proofs` ties the watcher to the record, call by call, and has the
// demands as theorems, from an opening (Theorems.antt, Stamps.antt) and from any whole record (From.antt).
#![tactic(auto)]
