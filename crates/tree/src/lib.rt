// The tree of a chart, read off its lent numbers: who is whose child and ancestor, the walks over a chart that passes the rules, and the
// ways that a descent goes.
#![tactic(auto)]

pub mod kin;
pub mod walks;
pub mod ways;
