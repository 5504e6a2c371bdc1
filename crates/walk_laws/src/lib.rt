// The check of a tree from the root down, as a definition in specs/, and its laws in proofs/. No code.
#![tactic(auto)]
