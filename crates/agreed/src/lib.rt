// Demand 3 down to the code (document 01, "The plan"): what the contracts of the calls allow is the same. Theorems alone: see proofs/.
#![tactic(auto)]
