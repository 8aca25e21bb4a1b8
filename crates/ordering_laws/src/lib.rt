// No functions: theorems on the calls on orderings (proofs/), which no proof of a function needs.
#![tactic(auto)]
