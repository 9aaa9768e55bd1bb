// No code: that the plain engine agrees with the record. It knows what the watcher of the chain theorems knows, without hearing an answer;
// so what is shown of the watcher holds of it, and each of its five answers is the record's, after every list of events.
#![tactic(auto)]
