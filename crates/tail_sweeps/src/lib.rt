// No code: `proofs` has the laws by which the calls of the tail table are shown to be what its definitions say, for flat words and structs.
#![tactic(auto)]
