// Batches, and what calls return and leave in lent words, tried case by case, by computation, in proofs/; there too, for all arguments, that
// each call answers the number that its definition gives. No code; nothing rests on it.
#![tactic(auto)]
