// The tour of a salvage: it ends, it is the recursion of the request, and it keeps the map of a sound table, in proofs/. No code.
#![tactic(auto)]
