// What a change of one node's view does to the nodes reached, the map and soundness, in proofs/. No code.
#![tactic(auto)]
