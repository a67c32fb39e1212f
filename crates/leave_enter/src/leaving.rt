// Leaving the states of a span (01, "Firing").
ghost use Rattle.std.specs.Prelude.{◌≡◌, suc, ◌+◌, ◌≤◌, ◌<◌, length};
ghost use Rattle.meaning.specs.Reaction.{leave_all};
ghost use Rattle.meaning.specs.Tree.{descendants};
ghost use Rattle.meaning.specs.Value.{chart_of};
ghost use Rattle.widget.specs.View.{Did};

use acts::index::Runnable;
use acts::leave;
use meaning::State;
use meaning::answers::Refusal;

// "The active states of the span are left, highest number first": those below s, which are the numbers that follow it up to below end.
pub fn leave_below(
    c: &Runnable,
    arg: i32,
    s: usize,
    end: usize,
    widget: &mut State,
    trace: &mut [i32],
    at: usize,
) -> Result<usize, Refusal>
    requires { (s < length (chart_of c.now.chart.now).states)
        × (end ≡ suc s + length (descendants (chart_of c.now.chart.now) s)) × (at ≤ length trace.old) }
    ensures { Did (leave_all (chart_of c.now.chart.now) arg (descendants (chart_of c.now.chart.now) s))
        widget.old trace.old at result widget.new trace.new }
{
    let mut next = at;
    for d in (s + 1..end).rev() {
        if !widget.active[d] {
            continue;
        }
        next = leave(c, arg, d, widget, trace, next)?;
    }
    Ok(next)
}
