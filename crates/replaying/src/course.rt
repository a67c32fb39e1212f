// The events of a replay one after the other, over the widget's state. The plan was examined and the tests for 7 and 6 were made.
ghost use Rattle.promises.specs.Replay.{items_of};
ghost use Rattle.meaning.specs.WellFormed.{plan_by};
ghost use Rattle.replaying.specs.Course.{Starts, GoneThrough};

use super::turns::{Stopped, post_and_run};
use meaning::State;
use plan_choice::planned::Plan;
use sizes::TRANSITIONS;

// How many numbers an event with its argument has.
pub const EVENT: usize = 2;

// How many events were done before the one that was refused, and how that was; where the trace of the last run ends.
#[derive(Drop)]
pub struct Halt {
    pub done: usize,
    pub why: Stopped,
    pub at: usize,
}

// The events, up to the first refusal; where the trace of the last run ends. After a refused run the state is what the run left.
pub fn go_through(
    plan: &Plan,
    events: &[i32],
    widget: &mut State,
    trace: &mut [i32],
) -> Result<usize, Halt>
    requires { Starts (plan_by plan.now.numbers.now) widget.old }
    ensures { GoneThrough (plan_by plan.now.numbers.now) (items_of events.now)
        widget.old trace.old result widget.new trace.new }
{
    let mut picks = [0; TRANSITIONS];
    let mut at: usize = 0;
    // By number, not in chunks: what is left to do is told by how many events are done.
    for done in 0..events.len() / EVENT {
        let event = events[2 * done];
        let arg = events[2 * done + 1];
        match post_and_run(plan, event, arg, &mut picks, widget, trace) {
            Ok(next) => at = next,
            Err(why) => return Err(Halt { done, why, at }),
        }
    }
    Ok(at)
}
