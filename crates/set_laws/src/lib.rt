// Laws of sets of numbers, in proofs/: marks as bits, and cells by open addressing. No code.
#![tactic(auto)]
