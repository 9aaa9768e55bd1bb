// No code: `specs` has the tail table in a chain of calls, and `proofs` what a caller can rely on.
#![tactic(auto)]
