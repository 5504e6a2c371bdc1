// Laws of a table's words, in proofs/; no code.
#![tactic(auto)]
