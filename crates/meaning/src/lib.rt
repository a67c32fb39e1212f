// The types that the definitions of document 01 speak of. There is no code here: specs/ says what 01 says.
#![tactic(auto)]

pub mod answers;
pub mod bytes;
pub mod chart;
pub mod plan;

use queue::{Item, Queue};
use sizes::{STATES, VARIABLES};

// A widget's state (01, "One reaction"): an empty slot is -1; places not in use hold false, -1, 0, and 0 with 0.
#[derive(Clone, Copy)]
pub struct State {
    pub started: bool,
    pub active: [bool; STATES],
    pub slots: [i32; STATES],
    pub vars: [i32; VARIABLES],
    pub queue: Queue,
}

// An entry of the trace (01, "Trace"): 1 transition taken; 2 state left; 3 state entered; 4 variable and its new value; 5 event sent and
// its argument; 6 number told.
#[derive(Clone, Copy)]
pub enum Entry {
    Taken(usize),
    Left(usize),
    Entered(usize),
    Changed(usize, i32),
    Sent(usize, i32),
    Told(i32),
}

// An answer number of 01 and the place given with it.
#[derive(Clone, Copy)]
pub struct Answer {
    pub number: usize,
    pub place: usize,
}

// What a call on a widget gives: the answer, the state after it, and how many trace entries it wrote.
#[derive(Clone, Copy)]
pub struct Called {
    pub answer: Answer,
    pub state: State,
    pub entries: usize,
}

// What is wrong with a number, a field or a line of a text (01, "Chart text"): its form, answer 1, or that it is beyond its size, answer 2.
#[derive(Clone, Copy, PartialEq, Eq)]
pub enum Fault {
    Wrong,
    Beyond,
}

// What writing a chart's text gives: the answer, and how many bytes were written.
#[derive(Drop)]
pub struct Written {
    pub answer: Answer,
    pub length: usize,
}

// A line of the trace program's input (01, "Checked by example"): an event and its argument to post; of another form there is none.
pub type Input = Option<Item>;
