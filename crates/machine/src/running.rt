// A run on a plan that was examined (01, "One reaction"): the tests 7, 6 and 8, the front event's step, null steps.
ghost use Rattle.std.specs.Prelude.{◌≡◌, length};
ghost use Rattle.meaning.specs.Steps.{◌then◌};
ghost use Rattle.meaning.specs.Calls.{called, lent};
ghost use Rattle.meaning.specs.Machine.{plan_step, plan_settle, plan_run};
ghost use Rattle.meaning.specs.WellFormed.{plan_by};
ghost use Rattle.widget.specs.View.{Did};
ghost use Rattle.plan_choice.specs.Heads.{Examined};

use ends::{finish, refuse};
use meaning::answers::Refusal;
use meaning::plan::Counts;
use meaning::{Called, State};
use numbers::reference;
use plan_choice::links::STARTS;
use plan_choice::planned::Plan;
use plan_own::own;
use plan_steps::{settle, step};
use queue_calls::answers::with_queue;
use sizes::TRANSITIONS;

// One step with the event. "Then null steps follow": without a head of trigger 0 there is none.
#[inline]
pub fn react(
    plan: &Plan,
    event: usize,
    arg: i32,
    picks: &mut [usize; TRANSITIONS],
    widget: &mut State,
    trace: &mut [i32],
) -> Result<usize, Refusal>
    ensures { Did (plan_step (plan_by plan.now.numbers.now) event arg then plan_settle (plan_by plan.now.numbers.now))
        widget.old trace.old 0 result widget.new trace.new }
{
    let next = step(plan, event, arg, picks, widget, trace, 0)?;
    if plan.links[STARTS + 1] <= plan.links[STARTS] {
        return Ok(next);
    }
    settle(plan, picks, widget, trace, next)
}

// "A run removes the front event and makes one step with it. Then null steps follow."
pub fn run_examined(plan: &[i32], k: Counts, state: State, trace: &mut [i32]) -> Called
    requires { Examined plan.now k }
    ensures { (result ≡ called (plan_run (plan_by plan.now) state (length trace.old))) × (trace.new
        ≡ lent (length trace.old) (plan_run (plan_by plan.now) state (length trace.old))) }
{
    if !state.started {
        return refuse(Refusal::NotStarted, state, trace);
    }
    if !own(plan, k, state) {
        return refuse(Refusal::Foreign, state, trace);
    }
    let (front, left) = state.queue.remove();
    let Some(front) = front else {
        return refuse(Refusal::QueueEmpty, state, trace);
    };
    let planned = Plan::of(plan, k);
    let event = reference(front.event);
    let mut widget = with_queue(state, left);
    let mut picks = [0; TRANSITIONS];
    let went = react(&planned, event, front.arg, &mut picks, &mut widget, trace);
    finish(state, went, widget, trace)
}
