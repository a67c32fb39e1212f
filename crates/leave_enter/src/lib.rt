// The moving parts of a firing on the chart itself (01, "Firing" and "History"): leaving the states of a span, going down
// by defaults, by the slots or towards a target, and firing one transition. Each function has one promise: what it leaves
// behind is what the definition gives.
#![tactic(auto)]

pub mod entering;
pub mod leaving;
