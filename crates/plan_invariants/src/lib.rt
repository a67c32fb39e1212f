// Theorems about the plan machine over any well-formed plan, and replay, see specs/ and proofs/. There is no code here.
#![tactic(auto)]
