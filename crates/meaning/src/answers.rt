// The answer numbers of document 01, "Answer numbers": one name each. specs/Answers.antt has the same.
ghost use Rattle.std.specs.Prelude.{◌≡◌};
ghost use Rattle.meaning.specs.Answers.{number_by, place_by, answer_by};

use crate::Answer;

// Done.
pub const DONE: usize = 0;

// A line has a wrong form, place or number, or the E line is missing.
pub const WRONG_LINE: usize = 1;

// A count or number is outside its size.
pub const OUTSIDE_SIZE: usize = 2;

// A rule fails, the first named.
pub const RULE_FAILS: usize = 3;

// The plan is longer than the slice lent.
pub const PLAN_TOO_LONG: usize = 4;

// A plan is cut short or not well formed.
pub const NOT_A_PLAN: usize = 5;

// A started state is foreign.
pub const FOREIGN: usize = 6;

// Not started.
pub const NOT_STARTED: usize = 7;

// Queue empty at run or discard.
pub const QUEUE_EMPTY: usize = 8;

// Queue full at post or send.
pub const QUEUE_FULL: usize = 9;

// Event not 1 to the count, or argument out of range.
pub const NO_SUCH_EVENT: usize = 10;

// No room for the next trace entry.
pub const NO_ROOM: usize = 11;

// A 33rd null step is needed.
pub const UNSETTLED: usize = 12;

// Text longer than the buffer.
pub const TEXT_TOO_LONG: usize = 13;

// A restore meets an empty slot below its owner.
pub const SLOT_EMPTY: usize = 14;

// A refusal (01, "Answer numbers"): one case for each number, with the line or the rule that is its place.
#[derive(Clone, Copy, Debug, PartialEq, Eq)]
pub enum Refusal {
    // 1: a line has a wrong form, place or number, or the E line is missing; at this line.
    WrongLine(usize),
    // 2: a count or number is outside its size; at this line, 0 for a text too long.
    OutsideSize(usize),
    // 3: a rule fails, the first named.
    RuleFails(usize),
    // 4: the plan is longer than the slice lent.
    PlanTooLong,
    // 5: a plan is cut short or not well formed.
    NotAPlan,
    // 6: a started state is foreign.
    Foreign,
    // 7: not started.
    NotStarted,
    // 8: queue empty at run or discard.
    QueueEmpty,
    // 9: queue full at post or send.
    QueueFull,
    // 10: event not 1 to the count, or argument out of range.
    NoSuchEvent,
    // 11: no room for the next trace entry.
    NoRoom,
    // 12: a 33rd null step is needed.
    Unsettled,
    // 13: text longer than the buffer.
    TextTooLong,
    // 14: a restore meets an empty slot below its owner.
    SlotEmpty,
}

impl Refusal {
    // The number that 01 gives it.
    pub fn number(self) -> usize
        ensures { result ≡ number_by self }
    {
        match self {
            Refusal::WrongLine(_) => WRONG_LINE,
            Refusal::OutsideSize(_) => OUTSIDE_SIZE,
            Refusal::RuleFails(_) => RULE_FAILS,
            Refusal::PlanTooLong => PLAN_TOO_LONG,
            Refusal::NotAPlan => NOT_A_PLAN,
            Refusal::Foreign => FOREIGN,
            Refusal::NotStarted => NOT_STARTED,
            Refusal::QueueEmpty => QUEUE_EMPTY,
            Refusal::QueueFull => QUEUE_FULL,
            Refusal::NoSuchEvent => NO_SUCH_EVENT,
            Refusal::NoRoom => NO_ROOM,
            Refusal::Unsettled => UNSETTLED,
            Refusal::TextTooLong => TEXT_TOO_LONG,
            Refusal::SlotEmpty => SLOT_EMPTY,
        }
    }

    // The place given with it: a line for 1 and 2, the rule for 3, else 0.
    pub fn place(self) -> usize
        ensures { result ≡ place_by self }
    {
        match self {
            Refusal::WrongLine(line) => line,
            Refusal::OutsideSize(line) => line,
            Refusal::RuleFails(rule) => rule,
            _ => 0,
        }
    }
}

// What a call that is done or refused answers: 0, or the refusal's number and its place.
impl<A: Drop> From<Result<A, Refusal>> for Answer {
    ghost from_gives = { λ ended answer. answer ≡ answer_by ended };

    fn from(ended: Result<A, Refusal>) -> Answer {
        match ended {
            Ok(_) => Answer {
                number: DONE,
                place: 0,
            },
            Err(refusal) => Answer {
                number: refusal.number(),
                place: refusal.place(),
            },
        }
    }
}
