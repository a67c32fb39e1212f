// Firing one transition (01, "Firing"): entry 1 of the trace, the active states of the span left, the transition's actions,
// and the way down to the target or the history; a reaction in place leaves and enters nothing.
#![tactic(auto)]

ghost use Rattle.std.specs.Prelude.{◌≡◌, suc, ◌+◌, ◌≤◌, ◌<◌, length};
ghost use Rattle.sizes.specs.Sizes.{TRANSITIONS as transitions};
ghost use Rattle.meaning.specs.Reaction.{fire as fires};
ghost use Rattle.meaning.specs.Tree.{descendants};
ghost use Rattle.meaning.specs.Value.{chart_of};
ghost use Rattle.widget.specs.View.{Did};
ghost use Rattle.tree.specs.Aims.{Found};
ghost use Rattle.tree.specs.Courses.{Inside, Owned, Led};
ghost use Rattle.firing.specs.Moving.{moving};

use acts::index::Runnable;
use acts::perform_all;
use chart_rows::trans_row;
use leave_enter::entering::descend;
use leave_enter::leaving::leave_below;
use meaning::State;
use meaning::answers::Refusal;
use meaning::chart::Owner;
use tree::ways::{Course, Goal, aim_of};
use widget::mark_taken;

// The states below the scope are left, then the transition's actions, then the way down to the goal.
fn move_to(
    c: &Runnable,
    arg: i32,
    t: usize,
    goal: Goal,
    top: usize,
    end: usize,
    widget: &mut State,
    trace: &mut [i32],
    at: usize,
) -> Result<usize, Refusal>
    requires { (Inside (chart_of c.now.chart.now) goal × Owned (chart_of c.now.chart.now) goal)
        × (top < length (chart_of c.now.chart.now).states)
        × (end ≡ suc top + length (descendants (chart_of c.now.chart.now) top))
        × Led (chart_of c.now.chart.now) widget.old.slots × (at ≤ length trace.old) × (t < transitions) }
    ensures { Did (moving (chart_of c.now.chart.now) arg t goal top) widget.old trace.old at result widget.new trace.new }
{
    let left = leave_below(c, arg, top, end, widget, trace, at)?;
    let acted = perform_all(c, arg, Owner::TransitionOf(t), widget, trace, left)?;
    descend(c, arg, Course::Towards(goal), top, widget, trace, acted)
}

// 01, "Firing": the transition t is taken; top and end are what choosing found out of it.
pub fn fire(
    c: &Runnable,
    arg: i32,
    t: usize,
    top: usize,
    end: usize,
    widget: &mut State,
    trace: &mut [i32],
    at: usize,
) -> Result<usize, Refusal>
    requires { (t < length (chart_of c.now.chart.now).transitions) × Found (chart_of c.now.chart.now) t top end
        × Led (chart_of c.now.chart.now) widget.old.slots × (at ≤ length trace.old) }
    ensures { Did (fires (chart_of c.now.chart.now) arg t) widget.old trace.old at result widget.new trace.new }
{
    let taken = mark_taken(t, trace, at)?;
    let row = trans_row(c.chart, t);
    let Some(goal) = aim_of(row.target) else {
        return perform_all(c, arg, Owner::TransitionOf(t), widget, trace, taken);
    };
    move_to(c, arg, t, goal, top, end, widget, trace, taken)
}
