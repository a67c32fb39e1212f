// A start on a plan that was examined (01, "One reaction"): a fresh widget, the start block, null steps.
ghost use Rattle.std.specs.Prelude.{◌≡◌, length};
ghost use Rattle.meaning.specs.Calls.{called, lent, fresh_by};
ghost use Rattle.meaning.specs.Machine.{plan_start_steps, plan_start};
ghost use Rattle.meaning.specs.WellFormed.{plan_by};
ghost use Rattle.widget.specs.View.{Did};
ghost use Rattle.plan_choice.specs.Heads.{Examined};

use ends::finish;
use meaning::answers::Refusal;
use meaning::plan::Counts;
use meaning::{Called, State};
use plan_choice::planned::Plan;
use plan_code::run_block;
use plan_rows::var_row;
use plan_steps::settle;
use queue::Queue;
use sizes::{STATES, TRANSITIONS, VARIABLES};

// "all variables at their first value"; places not in use are 0.
fn first_values(plan: &[i32], k: Counts) -> [i32; VARIABLES]
    requires { Examined plan.now k }
    ensures { result ≡ (fresh_by (plan_by plan.now).vars).vars }
{
    let mut vars: [i32; VARIABLES] = [0; VARIABLES];
    for v in 0..k.vars {
        vars[v] = var_row(plan, v).first;
    }
    vars
}

// A fresh widget: started, in no state, with every slot and the queue empty.
fn fresh(plan: &[i32], k: Counts) -> State
    requires { Examined plan.now k }
    ensures { result ≡ fresh_by (plan_by plan.now).vars }
{
    State {
        started: true,
        active: [false; STATES],
        slots: [-1; STATES],
        vars: first_values(plan, k),
        queue: Queue::empty(),
    }
}

// The start block, with argument 0, then null steps.
fn begin(
    plan: &Plan,
    picks: &mut [usize; TRANSITIONS],
    widget: &mut State,
    trace: &mut [i32],
) -> Result<usize, Refusal>
    ensures { Did (plan_start_steps (plan_by plan.now.numbers.now))
        widget.old trace.old 0 result widget.new trace.new }
{
    let next = run_block(plan, 0, plan.counts.start, 0, widget, trace, 0)?;
    settle(plan, picks, widget, trace, next)
}

// "Start, with argument 0 and whatever the state held .. It tests neither 7 nor 6."
pub fn start_examined(plan: &[i32], k: Counts, state: State, trace: &mut [i32]) -> Called
    requires { Examined plan.now k }
    ensures { (result ≡ called (plan_start (plan_by plan.now) state (length trace.old))) × (trace.new
        ≡ lent (length trace.old) (plan_start (plan_by plan.now) state (length trace.old))) }
{
    let planned = Plan::of(plan, k);
    let mut widget = fresh(plan, k);
    let mut picks = [0; TRANSITIONS];
    let went = begin(&planned, &mut picks, &mut widget, trace);
    finish(state, went, widget, trace)
}
