// The calls on a widget over a plan, on any numbers, any state and any lent trace (01, "The plan"): the plan is examined
// first, and each call on a plan that was examined stands in a module of its own.
#![tactic(auto)]

pub mod running;
pub mod starting;
pub mod waiting;

ghost use Rattle.std.specs.Prelude.{◌≡◌, length};
ghost use Rattle.meaning.specs.Calls.{called, lent};
ghost use Rattle.meaning.specs.Machine.{machine_start, machine_run, machine_post, machine_discard};

use ends::refuse;
use examiner::examine;
use meaning::{Called, State};
use plan_rows::counts;
use queue_calls::answers::refused;
use running::run_examined;
use starting::start_examined;
use waiting::{discard_examined, post_examined};

// Starts a widget: 5 where the plan is not well formed; then the first refusal met. It tests neither 7 nor 6.
pub fn start(plan: &[i32], state: State, trace: &mut [i32]) -> Called
    ensures { (result ≡ called (machine_start plan.now state (length trace.old))) × (trace.new
        ≡ lent (length trace.old) (machine_start plan.now state (length trace.old))) }
{
    if let Err(refusal) = examine(plan) {
        return refuse(refusal, state, trace);
    }
    start_examined(plan, counts(plan), state, trace)
}

// Runs the front event: 5 where the plan is not well formed; then 7, 6, 8; then the first refusal met.
pub fn run(plan: &[i32], state: State, trace: &mut [i32]) -> Called
    ensures { (result ≡ called (machine_run plan.now state (length trace.old))) × (trace.new
        ≡ lent (length trace.old) (machine_run plan.now state (length trace.old))) }
{
    if let Err(refusal) = examine(plan) {
        return refuse(refusal, state, trace);
    }
    run_examined(plan, counts(plan), state, trace)
}

// Posts an event with an argument: 5 where the plan is not well formed; then 7, 6, 10, 9.
pub fn post(plan: &[i32], state: State, event: i32, arg: i32) -> Called
    ensures { result ≡ called (machine_post plan.now state event arg) }
{
    if let Err(refusal) = examine(plan) {
        return refused(refusal.number(), refusal.place(), state);
    }
    post_examined(plan, counts(plan), state, event, arg)
}

// Discards the front event: 5 where the plan is not well formed; then 7, 6, 8.
pub fn discard(plan: &[i32], state: State) -> Called
    ensures { result ≡ called (machine_discard plan.now state) }
{
    if let Err(refusal) = examine(plan) {
        return refused(refusal.number(), refusal.place(), state);
    }
    discard_examined(plan, counts(plan), state)
}
