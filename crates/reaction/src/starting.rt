// A start on a chart that passes the rules (01, "One reaction"): a fresh widget, the root and its defaults, null steps.
ghost use Rattle.std.specs.Prelude.{◌≡◌, map, length};
ghost use Rattle.meaning.specs.Calls.{called, lent, fresh, start_steps, start as starts};
ghost use Rattle.meaning.specs.Value.{chart_of};
ghost use Rattle.meaning.specs.Rules.{Ruled};
ghost use Rattle.widget.specs.View.{Did};
ghost use Rattle.reaction.specs.Ready.{Ready};

use super::steps::settle;
use acts::enter;
use acts::index::Runnable;
use chart_rows::{var_count, var_row};
use ends::finish;
use leave_enter::entering::descend;
use meaning::answers::Refusal;
use meaning::{Called, State};
use queue::Queue;
use sizes::{STATES, VARIABLES};
use tree::ways::Course;

// "all variables at their first value"; places not in use are 0.
pub fn first_values(chart: &[i32]) -> [i32; VARIABLES]
    requires { Ruled chart.now }
    ensures { result ≡ (fresh (chart_of chart.now)).vars }
{
    let mut vars = [0; VARIABLES];
    for v in 0..var_count(chart) {
        let row = var_row(chart, v);
        vars[v] = row.first;
    }
    vars
}

// "enters the root and its defaults .., then makes null steps".
fn begin(c: &Runnable, widget: &mut State, trace: &mut [i32]) -> Result<usize, Refusal>
    requires { Ready (chart_of c.now.chart.now) widget.old trace.old 0 }
    ensures { Did (start_steps (chart_of c.now.chart.now)) widget.old trace.old 0 result widget.new trace.new }
{
    let root = enter(c, 0, 0, widget, trace, 0)?;
    let down = descend(c, 0, Course::Defaults, 0, widget, trace, root)?;
    settle(c, widget, trace, down)
}

// "Start, with argument 0 and whatever the state held .. It tests neither 7 nor 6."
pub fn start_ruled(chart: &[i32], state: State, trace: &mut [i32]) -> Called
    requires { Ruled chart.now }
    ensures { (result ≡ called (starts (chart_of chart.now) state (length trace.old))) × (trace.new
        ≡ lent (length trace.old) (starts (chart_of chart.now) state (length trace.old))) }
{
    let mut widget = State {
        started: true,
        active: [false; STATES],
        slots: [-1; STATES],
        vars: first_values(chart),
        queue: Queue::empty(),
    };
    let runnable = Runnable::new(chart);
    let went = begin(&runnable, &mut widget, trace);
    finish(state, went, widget, trace)
}
