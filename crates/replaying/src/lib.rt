// Replay over a plan (promises/specs/Replay): events with their arguments, each posted and run, up to the first refusal. The plan
// is examined once and the tests for 7 and 6 are made once; that this is what the single calls give is a theorem of
// plan_invariants. A refused run must leave the state after its event's post. No copy is kept for that: the events that were done
// are done once more from the first state, so that an event which is not refused pays nothing.
#![tactic(auto)]

pub mod course;
pub mod turns;

ghost use Rattle.std.specs.Prelude.{◌≡◌, [], true, ◌≤◌, length, take};
ghost use Rattle.queue.specs.Queue.{appended};
ghost use Rattle.meaning.specs.WellFormed.{plan_by, well_formed};
ghost use Rattle.plan_choice.specs.Heads.{Examined};
ghost use Rattle.plan_invariants.specs.Replay.{replay_examined as once};
ghost use Rattle.promises.specs.Replay.{course as went, items_of, replay as defined};
ghost use Rattle.replaying.specs.Course.{Told, Starts, Broken};

use course::{EVENT, go_through};
use examiner::examine;
use meaning::answers::{FOREIGN, NOT_A_PLAN, NOT_STARTED};
use meaning::plan::Counts;
use meaning::{Answer, State};
use plan_choice::planned::Plan;
use plan_own::own;
use plan_rows::counts;
use promises::Replayed;
use queue::Queue;
use sizes::ENTRY;
use turns::Stopped;
use widget::clear_from;

// Stopped before the first event: the state is as it was, and the lent trace is 0.
fn stopped(number: usize, state: State, trace: &mut [i32]) -> Replayed
    ensures { Told (went 0 number state []) trace.old result trace.new }
{
    clear_from(trace, 0);
    Replayed {
        answer: Answer { number, place: 0 },
        state,
        done: 0,
        entries: 0,
    }
}

// The end of a replay: so many events done, the answer, the state, and the last run's trace, which ends at this place.
fn told(done: usize, number: usize, at: usize, state: State, trace: &mut [i32]) -> Replayed
    requires { at ≤ length trace.old }
    ensures { Told (went done number state (take at trace.old)) trace.old result trace.new }
{
    clear_from(trace, at);
    Replayed {
        answer: Answer { number, place: 0 },
        state,
        done,
        entries: at / ENTRY,
    }
}

// The queue after a post; a full one stays as it was.
fn with_event(queue: Queue, event: i32, arg: i32) -> Queue
    ensures { result ≡ (appended queue event arg).queue }
{
    match queue.append(event, arg) {
        Ok(after) => after,
        Err(same) => same,
    }
}

// A run was refused after so many events: these are done once more from the first state, and the next one is posted.
fn as_posted(
    plan: &Plan,
    state: State,
    events: &[i32],
    done: usize,
    number: usize,
    trace: &mut [i32],
) -> Replayed
    requires { Starts (plan_by plan.now.numbers.now) state × Broken (plan_by plan.now.numbers.now)
        (length trace.old) (items_of events.now) state done number }
    ensures { Told
        (once (plan_by plan.now.numbers.now) state (items_of events.now) (length trace.old))
        trace.old result trace.new }
{
    let mut widget = state;
    let _ = go_through(plan, &events[..2 * done], &mut widget, trace);
    let event = events[2 * done];
    let arg = events[2 * done + 1];
    widget.queue = with_event(widget.queue, event, arg);
    told(done, number, 0, widget, trace)
}

// Replay on a plan that was examined: 7, then 6, and then event by event.
pub fn replay_examined(
    plan: &[i32],
    k: Counts,
    state: State,
    events: &[i32],
    trace: &mut [i32],
) -> Replayed
    requires { Examined plan.now k }
    ensures { Told (once (plan_by plan.now) state (items_of events.now) (length trace.old))
        trace.old result trace.new }
{
    if !state.started {
        return stopped(NOT_STARTED, state, trace);
    }
    if !own(plan, k, state) {
        return stopped(FOREIGN, state, trace);
    }
    let planned = Plan::of(plan, k);
    let mut widget = state;
    match go_through(&planned, events, &mut widget, trace) {
        Ok(at) => told(events.len() / EVENT, 0, at, widget, trace),
        Err(halt) => match halt.why {
            Stopped::AtPost(why) => told(halt.done, why.number(), halt.at, widget, trace),
            Stopped::AtRun(why) => {
                as_posted(&planned, state, events, halt.done, why.number(), trace)
            }
        },
    }
}

// Replay on numbers that were examined: without an event no call is made.
pub fn replay_planned(plan: &[i32], state: State, events: &[i32], trace: &mut [i32]) -> Replayed
    requires { well_formed plan.now ≡ true }
    ensures { Told (defined plan.now state (items_of events.now) (length trace.old))
        trace.old result trace.new }
{
    if events.len() < EVENT {
        return stopped(0, state, trace);
    }
    replay_examined(plan, counts(plan), state, events, trace)
}

// Replay over any numbers: with an event, 5 where the plan is not well formed.
pub fn replay(plan: &[i32], state: State, events: &[i32], trace: &mut [i32]) -> Replayed
    ensures { Told (defined plan.now state (items_of events.now) (length trace.old))
        trace.old result trace.new }
{
    if events.len() < EVENT {
        return stopped(0, state, trace);
    }
    if let Err(_) = examine(plan) {
        return stopped(NOT_A_PLAN, state, trace);
    }
    replay_planned(plan, state, events, trace)
}
