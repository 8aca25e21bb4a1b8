// No functions: definitions (specs/) and laws about them (proofs/) that several crates cite.
#![tactic(auto)]
