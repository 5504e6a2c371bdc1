// Laws of wear figures, in proofs/: the sum of the lines, the largest and its first line, what the extents cover. No code.
#![tactic(auto)]
