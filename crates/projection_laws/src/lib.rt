// Theorems on projection, with no function of its own: what its calls promise together (proofs/).
#![tactic(auto)]
