// Demand 3 from the laws of the single calls, in proofs/. No code.
#![tactic(auto)]
