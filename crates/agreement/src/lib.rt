// Demand 3 (document 01, "The plan"): the compiled plan does what the chart does. Theorems alone: see proofs/. There is no code here.
#![tactic(auto)]
