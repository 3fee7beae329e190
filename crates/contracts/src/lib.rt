// Statements and proofs alone: no function.
#![tactic(auto)]
