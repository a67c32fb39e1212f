// A run on a chart that passes the rules (01, "One reaction"): the tests 7, 6 and 8, the front event's step, null steps.
ghost use Rattle.std.specs.Prelude.{◌≡◌, length};
ghost use Rattle.meaning.specs.Steps.{◌then◌};
ghost use Rattle.meaning.specs.Reaction.{step as one_step, settle as settles};
ghost use Rattle.meaning.specs.Calls.{called, lent, run as runs};
ghost use Rattle.meaning.specs.Value.{chart_of};
ghost use Rattle.meaning.specs.Rules.{Ruled};
ghost use Rattle.widget.specs.View.{Did};
ghost use Rattle.reaction.specs.Ready.{Ready};

use super::steps::{settle, step};
use acts::index::Runnable;
use ends::{finish, refuse};
use meaning::answers::Refusal;
use meaning::{Called, State};
use numbers::reference;
use queue_calls::answers::with_queue;
use queue_calls::own::own;

// One step with the event, then null steps.
fn react(
    c: &Runnable,
    event: usize,
    arg: i32,
    widget: &mut State,
    trace: &mut [i32],
) -> Result<usize, Refusal>
    requires { Ready (chart_of c.now.chart.now) widget.old trace.old 0 }
    ensures { Did (one_step (chart_of c.now.chart.now) event arg then settles (chart_of c.now.chart.now))
        widget.old trace.old 0 result widget.new trace.new }
{
    let next = step(c, event, arg, widget, trace, 0)?;
    settle(c, widget, trace, next)
}

// "A run removes the front event and makes one step with it. Then null steps follow."
pub fn run_ruled(chart: &[i32], state: State, trace: &mut [i32]) -> Called
    requires { Ruled chart.now }
    ensures { (result ≡ called (runs (chart_of chart.now) state (length trace.old))) × (trace.new
        ≡ lent (length trace.old) (runs (chart_of chart.now) state (length trace.old))) }
{
    if !state.started {
        return refuse(Refusal::NotStarted, state, trace);
    }
    if !own(chart, state) {
        return refuse(Refusal::Foreign, state, trace);
    }
    let (first, left) = state.queue.remove();
    let Some(front) = first else {
        return refuse(Refusal::QueueEmpty, state, trace);
    };
    let mut widget = with_queue(state, left);
    let runnable = Runnable::new(chart);
    let went = react(
        &runnable,
        reference(front.event),
        front.arg,
        &mut widget,
        trace,
    );
    finish(state, went, widget, trace)
}
