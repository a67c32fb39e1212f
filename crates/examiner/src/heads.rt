// The heads of a plan, and the blocks that they give the instructions to: "the blocks fill the instructions".
ghost use Rattle.std.specs.Prelude.{◌≡◌, ◌&&◌, ◌+◌, ◌≤◌, eqb, length, take, drop, pos, negsuc};
ghost use Rattle.numbers.specs.Equal.{eq_z};
ghost use Rattle.meaning.specs.Lists.{every};
ghost use Rattle.meaning.specs.WellFormed.{HEAD_ROW, head_rows, head_by, head_guard_fits, span_fits, head_fits, all_blocks_fill};
ghost use Rattle.plan_rows.specs.Rows.{Sized};
ghost use Rattle.examiner.specs.Examined.{Whole};

use super::fits::{count_fits, one_of};
use meaning::plan::Counts;
use numbers::in_range;
use plan_rows::layout::{
    GUARD_CONSTANT, GUARD_SIGN, GUARD_VAR, HEAD_ROW, SOURCE, SPAN_FIRST, SPAN_LAST, TRANSITION,
    TRIGGER,
};
use plan_rows::{block_length, block_start, heads_at, read};
use sizes::TRANSITIONS;

// No guard: -1, 0, 0.
fn guard_absent(v: i32, g: i32, x: i32) -> bool
    ensures { result ≡ eq_z v (negsuc 0) && (eq_z g (pos 0) && eq_z x (pos 0)) }
{
    v == -1 && g == 0 && x == 0
}

// The guard is -1, 0, 0 or a variable, 1 to 3 and a number in range.
#[tactic(auto, unfolding(meaning::specs::WellFormed::head_guard_fits))]
fn guard_fits(k: Counts, v: i32, g: i32, x: i32) -> bool
    ensures { result ≡ head_guard_fits k v g x }
{
    guard_absent(v, g, x) || one_of(k.vars, v) && count_fits(1, 3, g) && in_range(x)
}

// Source and span are states with first ≤ last.
#[tactic(auto, unfolding(meaning::specs::WellFormed::span_fits))]
fn span_fits(k: Counts, source: i32, first: i32, last: i32) -> bool
    ensures { result ≡ span_fits k source first last }
{
    one_of(k.states, source) && one_of(k.states, first) && one_of(k.states, last) && first <= last
}

// The head whose row begins at this place.
fn head_fits(plan: &[i32], k: Counts, at: usize) -> bool
    requires { (at + HEAD_ROW ≤ length plan.now) × Sized k }
    ensures { result ≡ head_fits k (take HEAD_ROW (drop at plan.now)) }
{
    one_of(TRANSITIONS, read(plan, at + TRANSITION))
        && count_fits(0, k.events, read(plan, at + TRIGGER))
        && span_fits(
            k,
            read(plan, at + SOURCE),
            read(plan, at + SPAN_FIRST),
            read(plan, at + SPAN_LAST),
        )
        && guard_fits(
            k,
            read(plan, at + GUARD_VAR),
            read(plan, at + GUARD_SIGN),
            read(plan, at + GUARD_CONSTANT),
        )
}

pub fn heads_fit(plan: &[i32], k: Counts) -> bool
    requires { Whole plan.now k }
    ensures { result ≡ every (head_fits k) (head_rows plan.now k) }
{
    let base = heads_at(k);
    (0..k.heads).all(|h| head_fits(plan, k, base + h * HEAD_ROW))
}

// Does the block of the head whose row begins at this place begin with this instruction?
fn begins_with(plan: &[i32], at: usize, first: usize) -> bool
    requires { at + HEAD_ROW ≤ length plan.now }
    ensures { result ≡ eqb (head_by (take HEAD_ROW (drop at plan.now))).start first }
{
    block_start(plan, at) == first
}

// The start block, then the blocks in head order, no gaps. A block that ends past the last instruction ends the loop, so
// that no sum of lengths grows.
pub fn blocks_fill(plan: &[i32], k: Counts) -> bool
    requires { Whole plan.now k }
    ensures { result ≡ all_blocks_fill plan.now k }
{
    if k.instructions < k.start {
        return false;
    }
    let base = heads_at(k);
    let mut end = k.start;
    for h in 0..k.heads {
        let at = base + h * HEAD_ROW;
        let n = block_length(plan, at);
        if !begins_with(plan, at, end) || k.instructions - end < n {
            return false;
        }
        end += n;
    }
    end == k.instructions
}
