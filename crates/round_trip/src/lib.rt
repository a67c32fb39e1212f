// Chart text both ways, as theorems about the definitions alone. There is no code here: proofs/ holds the laws, Round.antt the two that
// count.
#![tactic(auto)]
