// No code: `specs` has the one way in which definitions pick a case by a test, and `proofs` its laws.
#![tactic(auto)]
