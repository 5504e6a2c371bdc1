// Two collections in one table: the definitions in specs/, their laws in proofs/. No code.
#![tactic(auto)]
