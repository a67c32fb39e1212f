// The calls on a widget over a plan (01, "The plan"), and replay. No function here asks anything of the numbers that it is lent: each
// examines its plan first.
ghost use Rattle.promises.specs.Promises.{PlanStarted, PlanRan, PlanPosted, PlanDiscarded, PlanReplayed};

use meaning::{Called, State};
use promises::Replayed;

// Starts a widget: 5 where the plan is not well formed; then the first refusal met. It tests neither 7 nor 6.
pub fn start(plan: &[i32], state: State, trace: &mut [i32]) -> Called
    ensures { PlanStarted plan.now state trace.old result trace.new }
{
    machine::start(plan, state, trace)
}

// Runs the front event: 5 where the plan is not well formed; then 7, 6, 8; then the first refusal met.
pub fn run(plan: &[i32], state: State, trace: &mut [i32]) -> Called
    ensures { PlanRan plan.now state trace.old result trace.new }
{
    machine::run(plan, state, trace)
}

// Appends an event with an argument: 5 where the plan is not well formed; then 7, 6, and 10 before 9.
pub fn post(plan: &[i32], state: State, event: i32, arg: i32) -> Called
    ensures { PlanPosted plan.now state event arg result }
{
    machine::post(plan, state, event, arg)
}

// Removes the front event: 5 where the plan is not well formed; then 7, 6, 8.
pub fn discard(plan: &[i32], state: State) -> Called
    ensures { PlanDiscarded plan.now state result }
{
    machine::discard(plan, state)
}

// Posts and runs events, each number with its argument after it, up to the first refusal: 5 where the plan is not well formed; 7, 6; then
// what a post or a run gives.
pub fn replay(plan: &[i32], state: State, events: &[i32], trace: &mut [i32]) -> Replayed
    ensures { PlanReplayed plan.now state events.now trace.old result trace.new }
{
    replaying::replay(plan, state, events, trace)
}
