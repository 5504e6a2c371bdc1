// The definitions of document 01 tried on small tables, by computation, in proofs/. No code; nothing rests on it.
#![tactic(auto)]
