// No code: chains of calls through the log, and of a caller who holds everything. `specs` has both; `proofs` shows that with room
// enough the log lists the events of the plain chain, what becomes of a full one, and demands 2 and 3 of a chain of real calls, each
// handed all that the last left (HeldTheorems.antt).
#![tactic(auto)]
