// Theorems about plans alone: the numbers of a plan and what they state. See proofs/. There is no code here.
#![tactic(auto)]
