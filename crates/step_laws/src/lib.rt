// Every store of every write keeps a sound table, with the old map or the new one: laws in proofs/, the words that contracts share in specs/. No code.
#![tactic(auto)]
