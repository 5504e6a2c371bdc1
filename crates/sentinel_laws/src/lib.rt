// Sentinels for the leaves: laws of the words and of a search that takes them, in proofs/. No code.
#![tactic(auto)]
