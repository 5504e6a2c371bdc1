// The two readings of "Sound tables", sentence by sentence and as a test, say the same: proofs/. No code.
#![tactic(auto)]
