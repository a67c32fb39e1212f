// The plan machine's test for answer 6 (01, "Answer numbers"): root active, each slot -1 or a state of the plan, variables,
// queue and unused places as a started widget has them. It equals the definition on every state.
#![tactic(auto)]

ghost use Rattle.std.specs.Prelude.{◌≡◌, ◌≤◌, take};
ghost use Rattle.sizes.specs.Sizes.{STATES as most};
ghost use Rattle.meaning.specs.Lists.{every};
ghost use Rattle.meaning.specs.Foreign.{values_fit};
ghost use Rattle.meaning.specs.Machine.{plan_slot_fits, plan_own};
ghost use Rattle.meaning.specs.WellFormed.{plan_by};
ghost use Rattle.queue_calls.specs.Parts.{value_fits};
ghost use Rattle.plan_choice.specs.Heads.{Examined};

use meaning::State;
use meaning::plan::Counts;
use numbers::{between, reference};
use plan_rows::var_row;
use queue_calls::own::rest_empty;
use sizes::{STATES, VARIABLES};
use widget::fits::{marks_fit, queue_fits};

// A variable of the plan in its range, any other 0.
fn value_fits(plan: &[i32], k: Counts, v: usize, x: i32) -> bool
    requires { Examined plan.now k }
    ensures { result ≡ value_fits (plan_by plan.now).vars v x }
{
    if v < k.vars {
        let row = var_row(plan, v);
        return between(row.low, x, row.high);
    }
    x == 0
}

fn values_fit(plan: &[i32], k: Counts, vars: [i32; VARIABLES]) -> bool
    requires { Examined plan.now k }
    ensures { result ≡ values_fit (plan_by plan.now).vars vars }
{
    (0..VARIABLES).all(|v| value_fits(plan, k, v, vars[v]))
}

// A slot is -1 or a state of the plan: any other number below 0 is neither.
fn slot_fits(states: usize, x: i32) -> bool
    requires { states ≤ most }
    ensures { result ≡ plan_slot_fits states x }
{
    x == -1 || reference(x) < states
}

// The slots of the plan's states.
fn slots_fit(states: usize, slots: [i32; STATES]) -> bool
    requires { states ≤ most }
    ensures { result ≡ every (plan_slot_fits states) (take states slots) }
{
    slots[..states].iter().all(|x| slot_fits(states, *x))
}

// Whether a started state is one that the plan machine runs; else answer 6.
pub fn own(plan: &[i32], k: Counts, state: State) -> bool
    requires { Examined plan.now k }
    ensures { result ≡ plan_own (plan_by plan.now).states
        (plan_by plan.now).vars (plan_by plan.now).events state }
{
    let active = state.active;
    active[0]
        && (marks_fit(k.states, active)
            && (values_fit(plan, k, state.vars)
                && (slots_fit(k.states, state.slots)
                    && (rest_empty(k.states, &state.slots) && queue_fits(k.events, state.queue)))))
}
