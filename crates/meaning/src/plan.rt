// The parts of a plan (01, "The plan"): its heads and its instructions, and what compiling gives.
// A number that names a state, a variable, an event or a transition is a usize here, as in the rows of a chart.
use crate::Answer;
use crate::chart::{Act, Guard};

// IN s; OUT s p (p the o parent, or none); SKIPOUT s n; SKIPEMPTY s n; SKIPFULL s n; SKIPNOT s d n; and the acts.
#[derive(Drop)]
pub enum Instr {
    In(usize),
    Out(usize, Option<usize>),
    SkipOut(usize, usize),
    SkipEmpty(usize, usize),
    SkipFull(usize, usize),
    SkipNot(usize, usize, usize),
    Does(Act),
}

// A head: transition, source, trigger, guard, span first, span last, block start, block length.
#[derive(Drop)]
pub struct Head {
    pub transition: usize,
    pub source: usize,
    pub trigger: usize,
    pub guard: Guard,
    pub first: usize,
    pub last: usize,
    pub start: usize,
    pub length: usize,
}

// A plan's first six numbers: states, variables, events, heads, instructions, start block length.
#[derive(Clone, Copy)]
pub struct Counts {
    pub states: usize,
    pub vars: usize,
    pub events: usize,
    pub heads: usize,
    pub instructions: usize,
    pub start: usize,
}

// What compiling a chart gives: the answer, and how many numbers the plan has.
#[derive(Drop)]
pub struct Compiled {
    pub answer: Answer,
    pub length: usize,
}
