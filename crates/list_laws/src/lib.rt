// Laws on Booleans and lists that the other law crates cite, in proofs/. No code.
#![tactic(auto)]
