// No functions: theorems on the enumeration from a dependency map (proofs/), which no proof of a function needs.
#![tactic(auto)]
