// The children that a state goes on with as long as states are left: the compiler's descents count the states down.
ghost use Rattle.std.specs.Prelude.{◌<◌, length};
ghost use Rattle.meaning.specs.Value.{chart_of};
ghost use Rattle.meaning.specs.Rules.{Ruled};
ghost use Rattle.tree.specs.Courses.{way_by, OnChild};
ghost use Rattle.blocks.specs.Kids.{KidsLeft};

use tree::ways::{Children, Next, goes_on};

// With no state left there is none to enter.
pub fn kids_within(chart: &[i32], s: usize, next: Next, left: usize) -> Children
    requires { Ruled chart.now × (s < length (chart_of chart.now).states) × OnChild (chart_of chart.now) s (way_by next) }
    ensures { KidsLeft (chart_of chart.now) (way_by next) s left result.first result.end }
{
    if left == 0 {
        return Children { first: s, end: s };
    }
    goes_on(chart, s, next)
}
