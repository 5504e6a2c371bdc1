// Laws of the slots of one node, in proofs/: hiding, and each store of a shift in, a shift out and a close. No code.
#![tactic(auto)]
