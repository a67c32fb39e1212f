// The bytes that part a chart text and the trace program's lines (01, "Chart text"): a tab between fields, LF at the end of a line.
pub const TAB: u8 = 9;

pub const LF: u8 = 10;
