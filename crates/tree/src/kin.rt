// The tree of a chart (01, "One reaction"): kinds, children, ancestors, read off the lent numbers. Each function equals
// the definition of the same name in the crate meaning, on every input.
ghost use Rattle.std.specs.Prelude.{◌≡◌};
ghost use Rattle.meaning.specs.Lists.{has};
ghost use Rattle.meaning.specs.Tree.{is_o, is_child, ancestors};
ghost use Rattle.meaning.specs.Effects.{o_parent};
ghost use Rattle.meaning.specs.Value.{chart_of};

use chart_rows::{kind_of, parent_of};
use meaning::chart::Kind;

pub fn is_o(kind: Kind) -> bool
    ensures { result ≡ is_o kind }
{
    kind == Kind::O
}

// Is d a child of s? The root is nobody's.
pub fn is_child(chart: &[i32], s: usize, d: usize) -> bool
    ensures { result ≡ is_child (chart_of chart.now) s d }
{
    d != 0 && parent_of(chart, d) == s
}

// The parent of s if that is an o state: leaving s stores it there.
pub fn o_parent(chart: &[i32], s: usize) -> Option<usize>
    ensures { result ≡ o_parent (chart_of chart.now) s }
{
    if s == 0 {
        return None;
    }
    let p = parent_of(chart, s);
    if is_o(kind_of(chart, p)) {
        Some(p)
    } else {
        None
    }
}

// Is a a proper ancestor of d? The way up from d has at most d steps.
pub fn is_ancestor(chart: &[i32], a: usize, d: usize) -> bool
    ensures { result ≡ has a (ancestors (chart_of chart.now) d) }
{
    let mut at = d;
    for _step in 0..d {
        if at == 0 {
            return false;
        }
        at = parent_of(chart, at);
        if a == at {
            return true;
        }
    }
    false
}
