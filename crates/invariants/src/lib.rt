// Theorems about every call on a widget over its chart: what started states keep, see proofs/. There is no code here.
#![tactic(auto)]
