// No code: what a replay is. `specs` has the events of recorded calls, an input log that holds them, the calls of a log's events, portions
// in a row, and the recorder's entries of a replay. `proofs` shows that portions add up (Portions.antt), what every replay gives (Gives.antt,
// Every.antt), that an event is bad exactly if it is no call's (Events.antt, Good.antt), that replaying recorded calls is their chain, and that the
// recorder's log has the replayed numbers (Theorems.antt).
#![tactic(auto)]
