// Packed pairs make a settled table with exactly these pairs as its map, and how many nodes they need, in proofs/. No code.
#![tactic(auto)]
