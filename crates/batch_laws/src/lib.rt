// Many insertions in one call, from the laws of the single calls, in proofs/. No code.
#![tactic(auto)]
