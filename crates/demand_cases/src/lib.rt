// No code: what is computed on the definitions. `specs` has document 01's cases P1 to P12; `proofs` has that they hold, the sixteen
// words of the log's example, a whole record for each phase and ticket, and chains to which the theorems are applied, so that no
// hypothesis of theirs is met by nothing.
#![tactic(auto)]
