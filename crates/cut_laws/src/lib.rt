// Laws of order lists and cuts, in proofs/: the flush rule step by step, what a cut may leave, carry-out of a lent list. No code.
#![tactic(auto)]
