// Laws on what is read of the nodes of a table, in proofs/. No code.
#![tactic(auto)]
