// What holds of every short script (request 11), in proofs/. No code.
#![tactic(auto)]
