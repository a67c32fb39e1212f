// Steps of the plan machine (01, "One reaction" and "The plan"): a head fires, all chosen heads fire, one step, null steps.
// What is lent is what the chart's runner works on, and the picks: the heads that the current step fires.
#![tactic(auto)]

ghost use Rattle.std.specs.Prelude.{◌≡◌, ◌≤◌, ◌<◌, length, map};
ghost use Rattle.meaning.specs.Steps.{each};
ghost use Rattle.meaning.specs.Machine.{fire_head, plan_step, plan_settle};
ghost use Rattle.meaning.specs.WellFormed.{heads_at, plan_by};
ghost use Rattle.widget.specs.View.{Did};
ghost use Rattle.plan_choice.specs.Heads.{head_of, Heads};

use meaning::State;
use meaning::answers::Refusal;
use plan_choice::planned::Plan;
use plan_choice::{choose, known};
use plan_code::run_block;
use plan_rows::heads_at;
use plan_rows::layout::{BLOCK_LENGTH, BLOCK_START, HEAD_ROW, TRANSITION};
use sizes::{NULL_STEPS, TRANSITIONS};
use widget::mark_taken;

// "Firing": its transition is taken, then its block is run.
fn fire(
    plan: &Plan,
    h: usize,
    arg: i32,
    widget: &mut State,
    trace: &mut [i32],
    at: usize,
) -> Result<usize, Refusal>
    requires { (h < plan.now.counts.heads) × (at ≤ length trace.old) }
    ensures { Did (fire_head (plan_by plan.now.numbers.now) arg (head_of plan.now.numbers.now (heads_at plan.now.counts) h))
        widget.old trace.old at result widget.new trace.new }
{
    let base = heads_at(plan.counts);
    let row = base + h * HEAD_ROW;
    let numbers = plan.numbers;
    let next = mark_taken(known(numbers, row + TRANSITION), trace, at)?;
    let start = known(numbers, row + BLOCK_START);
    let len = known(numbers, row + BLOCK_LENGTH);
    run_block(plan, start, len, arg, widget, trace, next)
}

// "They fire in that order": the chosen, one after the other.
fn fire_all(
    plan: &Plan,
    arg: i32,
    picks: &[usize],
    widget: &mut State,
    trace: &mut [i32],
    at: usize,
) -> Result<usize, Refusal>
    requires { Heads plan.now.counts.heads picks.now × (at ≤ length trace.old) }
    ensures { Did (each (fire_head (plan_by plan.now.numbers.now) arg)
        (map (head_of plan.now.numbers.now (heads_at plan.now.counts)) picks.now))
        widget.old trace.old at result widget.new trace.new }
{
    let mut next = at;
    for h in picks {
        next = fire(plan, *h, arg, widget, trace, next)?;
    }
    Ok(next)
}

// One step with an event and its argument.
pub fn step(
    plan: &Plan,
    event: usize,
    arg: i32,
    picks: &mut [usize; TRANSITIONS],
    widget: &mut State,
    trace: &mut [i32],
    at: usize,
) -> Result<usize, Refusal>
    requires { at ≤ length trace.old }
    ensures { Did (plan_step (plan_by plan.now.numbers.now) event arg)
        widget.old trace.old at result widget.new trace.new }
{
    let count = choose(plan, event, &widget.active, &widget.vars, picks);
    fire_all(plan, arg, &picks[..count], widget, trace, at)
}

// "null steps follow: trigger 0, argument 0, all chosen fire, until none is enabled"; 12 where a 33rd is needed.
pub fn settle(
    plan: &Plan,
    picks: &mut [usize; TRANSITIONS],
    widget: &mut State,
    trace: &mut [i32],
    at: usize,
) -> Result<usize, Refusal>
    requires { at ≤ length trace.old }
    ensures { Did (plan_settle (plan_by plan.now.numbers.now))
        widget.old trace.old at result widget.new trace.new }
{
    let mut next = at;
    let mut turns: usize = 0;
    // the form that 01 names: a loop that yields the settled widget or the refusal
    loop {
        let count = choose(plan, 0, &widget.active, &widget.vars, picks);
        if count == 0 {
            break Ok(next);
        }
        if turns == NULL_STEPS {
            break Err(Refusal::Unsettled);
        }
        next = fire_all(plan, 0, &picks[..count], widget, trace, next)?;
        turns += 1;
    }
}
