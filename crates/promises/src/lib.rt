// What the signer reads: document 01's small examples as one table (specs/Paper.antt) under one statement, the
// sentences of the demands in their order (proofs/Demands.antt), and that every public contract leaves one result
// (proofs/Once*.antt). No function.
#![tactic(auto)]
