// Laws of sound tables, in proofs/: rows of nodes, search and listing against the map. No code.
#![tactic(auto)]
