// No code: proofs by hand, of functions that the borrow checker does not cover, walk their code. `proofs` has what such walks share,
// whatever the function: plain data as a walk uses it, its steps, calls within it, and its beginning and end.
#![tactic(auto)]
