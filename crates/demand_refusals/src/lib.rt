// No code: demand 1 and the exact refusals. `specs` has, for each call, the numbers that it answers in document 01's order, each with
// its test, and the same through the log and for the status part; `proofs` shows that every answer is given exactly by its row, that a
// refusal leaves all as it was, that the retired number is never given, and that every promise determines what its call answers and
// leaves.
#![tactic(auto)]
