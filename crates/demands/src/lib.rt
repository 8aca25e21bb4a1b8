// No functions: what is proved of the calls of classes, conditions and questions together (proofs/), as the demands
// say it.
#![tactic(auto)]
