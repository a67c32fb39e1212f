// Which heads of a plan a step fires (01, "The machine chooses by heads alone, in their order"): the heads are read where
// they stand in the lent numbers, and the chosen are their numbers, in the order in which they fire. Only those of the step's trigger
// are looked at, which an index finds.
#![tactic(auto)]

pub mod links;
pub mod planned;

ghost use Rattle.std.specs.Prelude.{◌≡◌, ◌+◌, ◌≤◌, ◌<◌, pos, length, get_or};
ghost use Rattle.sizes.specs.Sizes.{STATES as states};
ghost use Rattle.numbers.specs.Reference.{ref, NOWHERE};
ghost use Rattle.meaning.specs.Machine.{head_enabled, spans_meet};
ghost use Rattle.meaning.specs.WellFormed.{HEAD_ROW};
ghost use Rattle.choice.specs.Choice.{seen, Reads};
ghost use Rattle.plan_choice.specs.Heads.{head_at, Spanned, Chose};

use choice::guard_true;
use links::{SOURCES, STARTS};
use plan_rows::layout::{HEAD_ROW, SPAN_FIRST, SPAN_LAST};
use plan_rows::{guard_at, heads_at, read};
use planned::Plan;
use sizes::{EVENTS, STATES, TRANSITIONS, VARIABLES};

// What the number at i names, where it is known to name something, as in a plan that was examined: its sign is not tested.
pub fn known(plan: &[i32], i: usize) -> usize
    requires { (i < length plan.now) × (ref (get_or plan.now i (pos 0)) < NOWHERE) }
    ensures { result ≡ ref (get_or plan.now i (pos 0)) }
{
    read(plan, i) as usize
}

// Source active, guard true of the values: of the head whose row begins at this place and whose source is known, in a step of its
// trigger. What does not match is passed over before anything of its row is read.
fn enabled(
    plan: &[i32],
    at: usize,
    source: usize,
    active: &[bool; STATES],
    vars: &[i32; VARIABLES],
) -> bool
    requires { (at + HEAD_ROW ≤ length plan.now)
        × (source < states) × Reads (head_at plan.now at).guard × (source ≡ (head_at plan.now at).source) }
    ensures { result ≡ head_enabled (head_at plan.now at).trigger
        (seen active.now vars.now) (head_at plan.now at) }
{
    active[source] && guard_true(guard_at(plan, at), vars)
}

// Whether the spans of two heads, whose rows begin at these places, have a state in common.
fn meet(plan: &[i32], at: usize, other: usize) -> bool
    requires { (at + HEAD_ROW ≤ length plan.now)
        × (other + HEAD_ROW ≤ length plan.now) × Spanned (head_at plan.now at) × Spanned (head_at plan.now other) }
    ensures { result ≡ spans_meet (head_at plan.now at) (head_at plan.now other) }
{
    known(plan, at + SPAN_FIRST) <= known(plan, other + SPAN_LAST)
        && known(plan, other + SPAN_FIRST) <= known(plan, at + SPAN_LAST)
}

// The enabled heads in their order, less any whose span meets that of one already chosen: their numbers stand in picks.
pub fn choose(
    plan: &Plan,
    event: usize,
    active: &[bool; STATES],
    vars: &[i32; VARIABLES],
    picks: &mut [usize; TRANSITIONS],
) -> usize
    ensures { Chose plan.now.numbers.now plan.now.counts event active.now vars.now result picks.new }
{
    if EVENTS < event {
        return 0;
    }
    let base = heads_at(plan.counts);
    let mut count: usize = 0;
    let start = plan.links[STARTS + event] as usize;
    let end = plan.links[STARTS + event + 1] as usize;
    'heads: for i in start..end {
        let h = plan.links[i] as usize;
        let source = plan.links[SOURCES + i] as usize;
        let at = base + h * HEAD_ROW;
        if !enabled(plan.numbers, at, source, active, vars) {
            continue;
        }
        for pick in &picks[..count] {
            if meet(plan.numbers, at, base + *pick * HEAD_ROW) {
                continue 'heads;
            }
        }
        picks[count] = h;
        count += 1;
    }
    count
}
