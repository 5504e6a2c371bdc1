// Searches whose looks fall between the orders of a call, and the values that a word takes meanwhile, in proofs/. No code.
#![tactic(auto)]
