// The sizes of document 01, "Sizes": one name each, and no other place in the code has the number.
#![tactic(auto)]

pub const LEAST_STATES: usize = 2;

pub const STATES: usize = 64;

pub const VARIABLES: usize = 16;

pub const EVENTS: usize = 32;

pub const TRANSITIONS: usize = 128;

pub const ACTIONS: usize = 256;

pub const QUEUE: usize = 16;

pub const NULL_STEPS: usize = 32;

pub const TEXT: usize = 32768;
// A trace entry ("One reaction") is three numbers.
pub const ENTRY: usize = 3;
// Every constant, argument and range end lies within plus or minus this.
pub const MOST: i32 = 1000000000;
// "The plan": at most so many instructions.
pub const INSTRUCTIONS: usize = 200000;
// A saved widget ("One reaction"): a started mark, a mark and a slot for each state, the variables, a queue length and its places.
pub const STATE_NUMBERS: usize = 1 + STATES + STATES + VARIABLES + 1 + QUEUE * 2;
