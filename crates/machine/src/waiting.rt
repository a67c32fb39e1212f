// The calls on a plan that was examined that make no reaction (01, "One reaction"): post and discard.
ghost use Rattle.std.specs.Prelude.{◌≡◌};
ghost use Rattle.meaning.specs.Calls.{called};
ghost use Rattle.meaning.specs.Machine.{plan_post, plan_discard};
ghost use Rattle.meaning.specs.WellFormed.{plan_by};
ghost use Rattle.plan_choice.specs.Heads.{Examined};

use meaning::answers::{FOREIGN, NO_SUCH_EVENT, NOT_STARTED, QUEUE_EMPTY, QUEUE_FULL};
use meaning::plan::Counts;
use meaning::{Called, State};
use plan_own::own;
use queue_calls::answers::{done, refused, with_queue};
use widget::fits::event_fits;

// "Post appends an event with an argument": 7, 6, then 10 before 9.
pub fn post_examined(plan: &[i32], k: Counts, state: State, event: i32, arg: i32) -> Called
    requires { Examined plan.now k }
    ensures { result ≡ called (plan_post (plan_by plan.now) state event arg) }
{
    if !state.started {
        return refused(NOT_STARTED, 0, state);
    }
    if !own(plan, k, state) {
        return refused(FOREIGN, 0, state);
    }
    if !event_fits(k.events, event, arg) {
        return refused(NO_SUCH_EVENT, 0, state);
    }
    let Ok(after) = state.queue.append(event, arg) else {
        return refused(QUEUE_FULL, 0, state);
    };
    done(with_queue(state, after))
}

// "discard removes the front one": 7, 6, then 8.
pub fn discard_examined(plan: &[i32], k: Counts, state: State) -> Called
    requires { Examined plan.now k }
    ensures { result ≡ called (plan_discard (plan_by plan.now) state) }
{
    if !state.started {
        return refused(NOT_STARTED, 0, state);
    }
    if !own(plan, k, state) {
        return refused(FOREIGN, 0, state);
    }
    let (front, after) = state.queue.remove();
    let Some(_) = front else {
        return refused(QUEUE_EMPTY, 0, state);
    };
    done(with_queue(state, after))
}
