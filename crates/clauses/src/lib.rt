// No code: `specs` has the upstream clauses that are kept, a record for each function and a field for each clause, and `proofs` the
// lemmas that give them of the promises here, with the gaps that document 01 reads in the upstream contracts.
#![tactic(auto)]
