// No code: how many Done reports lead to the end of a transaction, either way. The watcher of the chain theorems, who hears the answers,
// and the plain engine, which works them out, count by these same numbers.
#![tactic(auto)]
