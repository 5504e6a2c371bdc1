// Laws of a store seen by the nodes of a table, in proofs/. No code.
#![tactic(auto)]
