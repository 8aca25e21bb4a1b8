// Theorems on states, with no function of its own: what calls hand back fits its cells, and what is written is what is read (proofs/).
#![tactic(auto)]
