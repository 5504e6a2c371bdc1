// Laws of quick calls, in proofs/: with a summary that is true of the table they are the plain calls and keep it true; on any words they stay inside.
// No code.
#![tactic(auto)]
