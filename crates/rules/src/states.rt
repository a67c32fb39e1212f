// R1 to R4 (01, "Chart rules, in order"): the states and their tree. Each function equals a definition of the crate
// meaning, or of specs/Family.antt, on every input.
ghost use Rattle.std.specs.Prelude.{◌≡◌, length};
ghost use Rattle.meaning.specs.Tree.{kind_of};
ghost use Rattle.meaning.specs.Rules.{is_state, rule_1, rule_2, rule_3, rule_4, parent_fits, default_fits};
ghost use Rattle.meaning.specs.Value.{chart_of};
ghost use Rattle.rules.specs.Family.{Family, count_fits_kind};

use chart_rows::{default_child, kind_of, parent_of, state_count};
use meaning::chart::Kind;
use sizes::{LEAST_STATES, STATES};
use tree::kin::{is_ancestor, is_child, is_o};

// Does the chart have the state s?
pub fn is_state(chart: &[i32], s: usize) -> bool
    ensures { result ≡ is_state (chart_of chart.now) s }
{
    s < state_count(chart)
}

// R1: at least two states; state 0, the root, is kind o.
pub fn rule_1(chart: &[i32]) -> bool
    ensures { result ≡ rule_1 (chart_of chart.now) }
{
    LEAST_STATES <= state_count(chart) && is_o(kind_of(chart, 0))
}

// R2 of one state: the parent of n > 0 is n-1 or an ancestor of n-1.
fn parent_fits(chart: &[i32], n: usize) -> bool
    ensures { result ≡ parent_fits (chart_of chart.now) n }
{
    if n == 0 {
        return true;
    }
    let p = parent_of(chart, n);
    let last = n - 1;
    p == last || is_ancestor(chart, p, last)
}

pub fn rule_2(chart: &[i32]) -> bool
    ensures { result ≡ rule_2 (chart_of chart.now) }
{
    (0..state_count(chart)).all(|s| parent_fits(chart, s))
}

// How many children a state has, and whether all of them are o.
#[derive(Clone, Copy)]
pub struct Offspring {
    pub count: u16,
    pub plain: bool,
}

// Before any child is counted.
const CHILDLESS: Offspring = Offspring {
    count: 0,
    plain: true,
};

// The same of every state. One pass over the states: each is counted at its parent.
fn count_children(chart: &[i32]) -> [Offspring; STATES]
    ensures { Family (chart_of chart.now) (length (chart_of chart.now).states) result }
{
    let n = state_count(chart);
    let mut families = [CHILDLESS; STATES];
    // From 0, for a chart may have no state at all: a range from 1 would begin past its end.
    for d in 0..n {
        if d == 0 {
            continue;
        }
        let p = parent_of(chart, d);
        if STATES <= p {
            continue;
        }
        let Offspring { count, plain } = families[p];
        families[p] = Offspring {
            count: count + 1,
            plain: plain & is_o(kind_of(chart, d)),
        };
    }
    families
}

// R3 of one state: b has no child, o at least one, a at least two, all of them o.
fn children_fit(kind: Kind, children: Offspring) -> bool
    ensures { result ≡ count_fits_kind kind children.count children.plain }
{
    match kind {
        Kind::O => 1 <= children.count,
        Kind::A => 2 <= children.count && children.plain,
        Kind::B => children.count == 0,
    }
}

pub fn rule_3(chart: &[i32]) -> bool
    ensures { result ≡ rule_3 (chart_of chart.now) }
{
    let n = state_count(chart);
    let families = count_children(chart);
    for s in 0..n {
        if !children_fit(kind_of(chart, s), families[s]) {
            return false;
        }
    }
    true
}

// R4 of one state: an o state's default is its direct child.
fn default_fits(chart: &[i32], s: usize) -> bool
    ensures { result ≡ default_fits (chart_of chart.now) s (kind_of (chart_of chart.now) s) }
{
    if !is_o(kind_of(chart, s)) {
        return true;
    }
    let d = default_child(chart, s);
    is_state(chart, d) && is_child(chart, s, d)
}

pub fn rule_4(chart: &[i32]) -> bool
    ensures { result ≡ rule_4 (chart_of chart.now) }
{
    (0..state_count(chart)).all(|s| default_fits(chart, s))
}
