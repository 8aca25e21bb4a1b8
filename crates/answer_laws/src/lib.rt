// Theorems on what the library returns: a refusal leaves everything as it was. No code.
#![tactic(auto)]
