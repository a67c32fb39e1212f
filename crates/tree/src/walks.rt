// Walks over the tree of a chart that passes the rules (01, "One reaction"): where the descendants of a state end, the
// way from a state down to a target, and the scope. In preorder, R2, each is one loop, up by parents or on by numbers.
ghost use Rattle.std.specs.Prelude.{◌≡◌, suc, ◌+◌, ◌<◌, length};
ghost use Rattle.meaning.specs.Tree.{descendants, scope as scope_of};
ghost use Rattle.meaning.specs.Value.{chart_of};
ghost use Rattle.meaning.specs.Rules.{Ruled};
ghost use Rattle.tree.specs.Courses.{path_child};

use super::kin::{is_ancestor, is_o};
use chart_rows::{kind_of, parent_of, state_count};

// The first number past the proper descendants of s: they are the numbers that follow it.
pub fn end_below(chart: &[i32], s: usize) -> usize
    requires { Ruled chart.now × (s < length (chart_of chart.now).states) }
    ensures { result ≡ suc s + length (descendants (chart_of chart.now) s) }
{
    let count = state_count(chart);
    for d in s + 1..count {
        if parent_of(chart, d) < s {
            return d;
        }
    }
    count
}

// The child of s through which the way goes to t, where s is a proper ancestor of t.
pub fn path_child(chart: &[i32], s: usize, t: usize) -> Option<usize>
    requires { Ruled chart.now }
    ensures { result ≡ path_child (chart_of chart.now) s t }
{
    let mut x = t;
    // A climb, not a count: each turn goes from a state to its parent, so no range or iterator gives the states in between.
    while 0 < x {
        let p = parent_of(chart, x);
        if p == s {
            return Some(x);
        }
        x = p;
    }
    None
}

// 01, "Scope": the lowest o state that is a proper ancestor of source and target.
pub fn scope(chart: &[i32], s: usize, t: usize) -> usize
    requires { Ruled chart.now }
    ensures { result ≡ scope_of (chart_of chart.now) s t }
{
    let mut x = s;
    // A climb by parents, as in path_child: there is no range to go over.
    while 0 < x {
        x = parent_of(chart, x);
        if is_o(kind_of(chart, x)) && is_ancestor(chart, x, t) {
            return x;
        }
    }
    0
}
