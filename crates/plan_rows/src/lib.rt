// The plan as a lent slice of numbers, read by accessors (01, "The plan"). The counts are read from any numbers; a row is
// read only where it is there whole, which its caller shows. Each accessor equals a definition of the crate meaning.
#![tactic(auto)]

pub mod code;
pub mod decode;
pub mod layout;

ghost use Rattle.std.specs.Prelude.{◌≡◌, ◌+◌, ◌*◌, ◌<◌, ◌≤◌, get_or, length, take, drop, pos};
ghost use Rattle.numbers.specs.Reference.{ref};
ghost use Rattle.meaning.specs.Value.{size_by, var_by, VAR_ROW};
ghost use Rattle.meaning.specs.WellFormed.{SIX, HEAD_ROW, counts_of, heads_at, code_at, plan_end, head_by};
ghost use Rattle.plan_rows.specs.Rows.{Sized, row};

use chart_rows::number_at;
use decode::head_guard_by;
use layout::{
    BLOCK_LENGTH, BLOCK_START, EVENT_COUNT, GUARD_CONSTANT, GUARD_SIGN, GUARD_VAR, HEAD_COUNT,
    HEAD_ROW, HEADER, INSTR_COUNT, INSTR_ROW, SOURCE, SPAN_FIRST, SPAN_LAST, START_LENGTH,
    STATE_COUNT, TRANSITION, TRIGGER, VAR_COUNT, VAR_FIRST, VAR_HIGH, VAR_LOW, VAR_ROW,
};
use meaning::chart::{Guard, VarRow};
use meaning::plan::{Counts, Head};
use numbers::reference;
use sizes::{EVENTS, INSTRUCTIONS, STATES, TRANSITIONS, VARIABLES};

// The count at i, 0 where it does not keep its size.
fn count_at(plan: &[i32], i: usize, most: usize) -> usize
    ensures { result ≡ size_by most (get_or plan.now i (pos 0)) }
{
    let n = reference(number_at(plan, i));
    if n <= most { n } else { 0 }
}

// The header of any numbers: a count that does not keep its size counts as none.
pub fn counts(plan: &[i32]) -> Counts
    ensures { result ≡ counts_of plan.now }
{
    Counts {
        states: count_at(plan, STATE_COUNT, STATES),
        vars: count_at(plan, VAR_COUNT, VARIABLES),
        events: count_at(plan, EVENT_COUNT, EVENTS),
        heads: count_at(plan, HEAD_COUNT, TRANSITIONS),
        instructions: count_at(plan, INSTR_COUNT, INSTRUCTIONS),
        start: reference(number_at(plan, START_LENGTH)),
    }
}

// Where the heads begin.
pub fn heads_at(k: Counts) -> usize
    requires { Sized k }
    ensures { result ≡ heads_at k }
{
    HEADER + k.vars * VAR_ROW
}

// Where the instructions begin.
pub fn code_at(k: Counts) -> usize
    requires { Sized k }
    ensures { result ≡ code_at k }
{
    heads_at(k) + k.heads * HEAD_ROW
}

// Where the plan ends.
pub fn plan_end(k: Counts) -> usize
    requires { Sized k }
    ensures { result ≡ plan_end k }
{
    code_at(k) + k.instructions * INSTR_ROW
}

// The number at i, which is there.
pub fn read(plan: &[i32], i: usize) -> i32
    requires { i < length plan.now }
    ensures { result ≡ get_or plan.now i (pos 0) }
{
    plan[i]
}

// What the number at i names.
pub fn named(plan: &[i32], i: usize) -> usize
    requires { i < length plan.now }
    ensures { result ≡ ref (get_or plan.now i (pos 0)) }
{
    reference(read(plan, i))
}

// Variable v's row.
pub fn var_row(plan: &[i32], v: usize) -> VarRow
    requires { SIX + (v + 1) * VAR_ROW ≤ length plan.now }
    ensures { result ≡ var_by (row VAR_ROW SIX v plan.now) }
{
    let at = HEADER + v * VAR_ROW;
    VarRow {
        low: read(plan, at + VAR_LOW),
        high: read(plan, at + VAR_HIGH),
        first: read(plan, at + VAR_FIRST),
    }
}

// Of the head whose row begins at this place: its guard, the first instruction of its block, the block's length.
pub fn guard_at(plan: &[i32], at: usize) -> Guard
    requires { at + HEAD_ROW ≤ length plan.now }
    ensures { result ≡ (head_by (take HEAD_ROW (drop at plan.now))).guard }
{
    head_guard_by(
        read(plan, at + GUARD_VAR),
        read(plan, at + GUARD_SIGN),
        read(plan, at + GUARD_CONSTANT),
    )
}

pub fn block_start(plan: &[i32], at: usize) -> usize
    requires { at + HEAD_ROW ≤ length plan.now }
    ensures { result ≡ (head_by (take HEAD_ROW (drop at plan.now))).start }
{
    named(plan, at + BLOCK_START)
}

pub fn block_length(plan: &[i32], at: usize) -> usize
    requires { at + HEAD_ROW ≤ length plan.now }
    ensures { result ≡ (head_by (take HEAD_ROW (drop at plan.now))).length }
{
    named(plan, at + BLOCK_LENGTH)
}

// Head h, where the heads begin at base.
pub fn head_row(plan: &[i32], base: usize, h: usize) -> Head
    requires { base + (h + 1) * HEAD_ROW ≤ length plan.now }
    ensures { result ≡ head_by (row HEAD_ROW base h plan.now) }
{
    let at = base + h * HEAD_ROW;
    Head {
        transition: named(plan, at + TRANSITION),
        source: named(plan, at + SOURCE),
        trigger: named(plan, at + TRIGGER),
        guard: guard_at(plan, at),
        first: named(plan, at + SPAN_FIRST),
        last: named(plan, at + SPAN_LAST),
        start: block_start(plan, at),
        length: block_length(plan, at),
    }
}
