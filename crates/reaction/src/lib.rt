// One reaction on a chart that passes the rules (01, "One reaction"): steps and null steps stand in steps, the two calls that make them
// in starting and running.
#![tactic(auto)]

pub mod running;
pub mod starting;
pub mod steps;
