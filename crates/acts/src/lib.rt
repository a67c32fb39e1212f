// An owner's actions, and entering and leaving one state with them (01, "Chart text" and "Firing"), over the lent chart.
// Each function has one promise: what it leaves behind is what the definition of the same name gives.
#![tactic(auto)]

pub mod index;

ghost use Rattle.std.specs.Prelude.{◌≡◌, ◌≤◌, ◌<◌, length};
ghost use Rattle.meaning.specs.Effects.{act_var, perform_all, enter as enters, leave as leaves};
ghost use Rattle.meaning.specs.Value.{chart_of};
ghost use Rattle.sizes.specs.Sizes.{STATES as states};
ghost use Rattle.acts.specs.Index.{Fits};
ghost use Rattle.widget.specs.View.{Did};

use chart_rows::{action_count, action_row, var_row};
use index::Runnable;
use meaning::State;
use meaning::answers::Refusal;
use meaning::chart::{Act, Owner};
use tree::kin::o_parent;
use widget::{mark_entered, mark_left, perform};

// The variable of an act; send and tell have none.
#[tactic(auto, unfolding(meaning::specs::Effects::act_var))]
pub fn act_var(act: Act) -> usize
    ensures { result ≡ act_var act }
{
    match act {
        Act::SetTo(v, _) | Act::AddTo(v, _) | Act::TakeTo(v) => v,
        Act::Send(_, _) | Act::Tell(_) => 0,
    }
}

// "An owner's actions run in line order"; the first refusal ends them.
pub fn perform_all(
    c: &Runnable,
    arg: i32,
    owner: Owner,
    widget: &mut State,
    trace: &mut [i32],
    at: usize,
) -> Result<usize, Refusal>
    requires { (at ≤ length trace.old) × Fits owner }
    ensures { Did (perform_all (chart_of c.now.chart.now) arg owner) widget.old trace.old at result widget.new trace.new }
{
    let n = action_count(c.chart);
    let mut next = at;
    // No range gives the rows of one owner: each is found by the index from the one before it.
    let mut i = c.first_row(owner);
    while i < n {
        let row = action_row(c.chart, i);
        let bounds = var_row(c.chart, act_var(row.act));
        next = perform(bounds, arg, row.act, widget, trace, next)?;
        i = c.next_row(i);
    }
    Ok(next)
}

// 01, "Firing": a state is entered, followed by its entry actions.
pub fn enter(
    c: &Runnable,
    arg: i32,
    s: usize,
    widget: &mut State,
    trace: &mut [i32],
    at: usize,
) -> Result<usize, Refusal>
    requires { (s < states) × (at ≤ length trace.old) }
    ensures { Did (enters (chart_of c.now.chart.now) arg s) widget.old trace.old at result widget.new trace.new }
{
    let next = mark_entered(s, widget, trace, at)?;
    perform_all(c, arg, Owner::EntryOf(s), widget, trace, next)
}

// 01, "Firing": a state is left and stored in its o parent's slot; its exit actions follow at once.
pub fn leave(
    c: &Runnable,
    arg: i32,
    s: usize,
    widget: &mut State,
    trace: &mut [i32],
    at: usize,
) -> Result<usize, Refusal>
    requires { (s < states) × (at ≤ length trace.old) }
    ensures { Did (leaves (chart_of c.now.chart.now) arg s) widget.old trace.old at result widget.new trace.new }
{
    let next = mark_left(o_parent(c.chart, s), s, widget, trace, at)?;
    perform_all(c, arg, Owner::ExitOf(s), widget, trace, next)
}
