// What the trace program decides (01, the end of "Checked by example"): the form of an input line, read byte by byte, and what is
// printed of a call; with the pen, for programs that print. The line under way is a value that is fed each byte, so a line may have any
// length and no buffer holds it.
#![tactic(auto)]

mod printed;
mod scan;

pub use fields::LF;
pub use pen::{put, put_digits, put_numeral};
pub use printed::{HEAD, LINE, report};
pub use scan::{Collected, Digits, Scan, collect};
