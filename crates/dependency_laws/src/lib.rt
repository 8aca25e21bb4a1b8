// No functions: theorems on the dependency map (proofs/), which no proof of a function needs.
#![tactic(auto)]
