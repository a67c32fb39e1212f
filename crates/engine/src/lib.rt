// The engine's door (01): every function that a host or a program calls, each with its promise by name (crate promises), and
// nothing else. A chart is a value in lent numbers, and no function at the root asks anything of what it is lent. A caller that
// has checked a chart once finds in checked the same calls without the check. Plans are made and examined in plans, and run in
// planned; examined is for a plan that was examined once. What is handed on here stands in chart_engine and plan_engine, each
// with its proofs and edits.
#![tactic(auto)]

pub use chart_engine::{check, checked, discard, post, read, run, start, unstarted, write};
pub use chart_rows::layout::VALUE;
pub use meaning::answers::Refusal;
pub use meaning::plan::Compiled;
pub use meaning::{Answer, Called, State, Written};
pub use plan_engine::{examined, planned, plans};
pub use promises::Replayed;
