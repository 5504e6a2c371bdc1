// Demand 2 from the laws of search, listing and the single calls, in proofs/. No code.
#![tactic(auto)]
