// Where the numbers of a chart handed over as a value stand: five counts, then room for each record kind at its full
// size. specs/Value.antt of the crate meaning has the same places.
use sizes::{ACTIONS, STATES, TRANSITIONS, VARIABLES};

// The counts' own places.
pub const STATE_COUNT: usize = 0;

pub const VAR_COUNT: usize = 1;

pub const EVENT_COUNT: usize = 2;

pub const TRANSITION_COUNT: usize = 3;

pub const ACTION_COUNT: usize = 4;

pub const COUNTS: usize = 5;

// Numbers to a row.
pub const STATE_ROW: usize = 3;

pub const VAR_ROW: usize = 3;

pub const TRANS_ROW: usize = 7;

pub const ACT_ROW: usize = 5;

// Where each kind's rows begin.
pub const STATES_AT: usize = COUNTS;

pub const VARS_AT: usize = STATES_AT + STATES * STATE_ROW;

pub const TRANSITIONS_AT: usize = VARS_AT + VARIABLES * VAR_ROW;

pub const ACTIONS_AT: usize = TRANSITIONS_AT + TRANSITIONS * TRANS_ROW;

// How many numbers a value has.
pub const VALUE: usize = ACTIONS_AT + ACTIONS * ACT_ROW;
