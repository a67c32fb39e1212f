// The rows of a chart (01, "Chart text"): what the records S, V, T and A state.
// A number that refers to a state, a variable, an event or a transition is a usize here; one below 0 names nothing
// and is numbers::NOWHERE, which no chart has.

// kind (o, a, b)
#[derive(Clone, Copy, PartialEq, Eq)]
pub enum Kind {
    O,
    A,
    B,
}

// guard sign (=, <, >), by the number that a plan has for it (1 =, 2 <, 3 >)
#[derive(Clone, Copy, PartialEq, Eq)]
pub enum Sign {
    Equal = 1,
    Less = 2,
    More = 3,
}

// "The three guard fields are all - or none is": variable, sign, constant.
#[derive(Clone, Copy)]
pub enum Guard {
    Always,
    Compares(usize, Sign, i32),
}

// A state, the history of a state, or a reaction in place.
#[derive(Clone, Copy)]
pub enum Target {
    To(usize),
    History(usize),
    InPlace,
}

// Acts s, a, k, q, o: set, add, take, send, tell.
#[derive(Clone, Copy)]
pub enum Act {
    SetTo(usize, i32),
    AddTo(usize, i32),
    TakeTo(usize),
    Send(usize, i32),
    Tell(i32),
}

// Owner kinds e, x, d, t.
#[derive(Drop)]
pub enum Owner {
    EntryOf(usize),
    ExitOf(usize),
    DefaultOf(usize),
    TransitionOf(usize),
}

// S, number, parent, kind, default; "-" is 0.
#[derive(Drop)]
pub struct StateRow {
    pub parent: usize,
    pub kind: Kind,
    pub default: usize,
}

// V, number, low, high, first value.
#[derive(Drop)]
pub struct VarRow {
    pub low: i32,
    pub high: i32,
    pub first: i32,
}

// T, number, source, trigger, guard, target.
#[derive(Clone, Copy)]
pub struct TransRow {
    pub source: usize,
    pub trigger: usize,
    pub guard: Guard,
    pub target: Target,
}

// A, owner, act.
#[derive(Drop)]
pub struct ActRow {
    pub owner: Owner,
    pub act: Act,
}
