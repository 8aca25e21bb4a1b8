// Theorems on `new` and join, with no function of its own: what they promise together (proofs/).
#![tactic(auto)]
