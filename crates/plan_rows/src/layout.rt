// Where the numbers of a plan stand (01, "The plan"): six counts, then a row for each variable, for each head and for each
// instruction. Each number's place in the header and in its row has one name. specs/WellFormed.antt of the crate meaning
// has the same places.

// The header: states, variables, events, heads, instructions, start block length.
pub const STATE_COUNT: usize = 0;

pub const VAR_COUNT: usize = 1;

pub const EVENT_COUNT: usize = 2;

pub const HEAD_COUNT: usize = 3;

pub const INSTR_COUNT: usize = 4;

pub const START_LENGTH: usize = 5;

pub const HEADER: usize = 6;

// A variable: low, high, first.
pub const VAR_LOW: usize = 0;

pub const VAR_HIGH: usize = 1;

pub const VAR_FIRST: usize = 2;

pub const VAR_ROW: usize = 3;

// A head: transition, source, trigger, guard variable, sign, constant, span first, span last, block start, block length.
pub const TRANSITION: usize = 0;

pub const SOURCE: usize = 1;

pub const TRIGGER: usize = 2;

pub const GUARD_VAR: usize = 3;

pub const GUARD_SIGN: usize = 4;

pub const GUARD_CONSTANT: usize = 5;

pub const SPAN_FIRST: usize = 6;

pub const SPAN_LAST: usize = 7;

pub const BLOCK_START: usize = 8;

pub const BLOCK_LENGTH: usize = 9;

pub const HEAD_ROW: usize = 10;

// An instruction: its code and three numbers.
pub const CODE: usize = 0;

pub const FIRST: usize = 1;

pub const SECOND: usize = 2;

pub const THIRD: usize = 3;

pub const INSTR_ROW: usize = 4;
