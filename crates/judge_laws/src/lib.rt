// Judging a supplier's order list, in proofs/: what computes the answer says what is asked, and every list of ours is accepted. No code.
#![tactic(auto)]
