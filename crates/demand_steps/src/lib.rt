// No code: one call on a whole record, for the theorems over chains. `specs` has a watcher who hears only calls and answers; `proofs`
// has a whole record as facts of its fields, what a call does on it by cases, and that it leaves a whole record.
#![tactic(auto)]
