// Theorems about the definitions of document 01 alone: see proofs/. There is no code here.
#![tactic(auto)]
