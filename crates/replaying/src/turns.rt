// One event of a replay (promises/specs/Replay) over the widget's state, which is lent: posted, and run at once. Of 7 and 6 only the root's
// mark is tested here; the rest was tested before the first event and holds after every run.
ghost use Rattle.std.specs.Prelude.{◌≡◌, length};
ghost use Rattle.queue.specs.Queue.{item};
ghost use Rattle.meaning.specs.WellFormed.{plan_by};
ghost use Rattle.replaying.specs.Turns.{Free, Passes, Turned};

use machine::running::react;
use meaning::State;
use meaning::answers::Refusal;
use numbers::reference;
use plan_choice::planned::Plan;
use queue::{Item, Queue};
use sizes::TRANSITIONS;
use widget::fits::event_fits;

// What refused an event: its post, or the run that followed it.
#[derive(Drop)]
pub enum Stopped {
    AtPost(Refusal),
    AtRun(Refusal),
}

// An event goes through the queue: it is appended, and the front is removed; none where there is no room. An event for an empty queue is
// the front itself.
fn pass(queue: &mut Queue, event: i32, arg: i32) -> Option<Item>
    requires { Free queue.old }
    ensures { Passes queue.old event arg result queue.new }
{
    if queue.len == 0 {
        return Some(Item { event, arg });
    }
    let Ok(after) = queue.append(event, arg) else {
        return None;
    };
    let (front, left) = after.remove();
    *queue = left;
    front
}

// One event: 6 where the root is not active, then 10 before 9, then its run.
pub fn post_and_run(
    plan: &Plan,
    event: i32,
    arg: i32,
    picks: &mut [usize; TRANSITIONS],
    widget: &mut State,
    trace: &mut [i32],
) -> Result<usize, Stopped>
    requires { Free widget.old.queue }
    ensures { Turned (plan_by plan.now.numbers.now) (item event arg)
        widget.old trace.old result widget.new trace.new }
{
    if !widget.active[0] {
        return Err(Stopped::AtPost(Refusal::Foreign));
    }
    if !event_fits(plan.counts.events, event, arg) {
        return Err(Stopped::AtPost(Refusal::NoSuchEvent));
    }
    let Some(front) = pass(&mut widget.queue, event, arg) else {
        return Err(Stopped::AtPost(Refusal::QueueFull));
    };
    let trigger = reference(front.event);
    react(plan, trigger, front.arg, picks, widget, trace).map_err(Stopped::AtRun)
}
