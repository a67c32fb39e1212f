// The test for answer 6 in full (01, "Answer numbers"): whether a started state is its chart's own. Each clause is a function
// that equals its definition on every chart value and every state; none of them asks that the chart passes the rules.
ghost use Rattle.std.specs.Prelude.{◌≡◌, Bool, true, ◌≤◌, ◌<◌, pos, negsuc, length, get_or, drop, replicate};
ghost use Rattle.sizes.specs.Sizes.{STATES as states, VARIABLES as variables};
ghost use Rattle.numbers.specs.Equal.{eq_z};
ghost use Rattle.numbers.specs.Place.{place_of};
ghost use Rattle.meaning.specs.declared.State.{State as Widget};
ghost use Rattle.meaning.specs.Lists.{every};
ghost use Rattle.meaning.specs.Tree.{kind_of};
ghost use Rattle.meaning.specs.Value.{chart_of};
ghost use Rattle.meaning.specs.Widget.{is_filled, slot};
ghost use Rattle.meaning.specs.Foreign.{legal_at, legal, values_fit, slots_fit, own as owns};
ghost use Rattle.queue_calls.specs.Parts.{tally_of, no_children, Tallied, value_fits, leads_if, slot_if, slots_if, is_at, in_slot, Completes};

use chart_rows::{event_count, kind_of, parent_of, state_count, var_count, var_row};
use meaning::State;
use meaning::chart::Kind;
use numbers::{between, place_of};
use sizes::{STATES, VARIABLES};
use tree::kin::{is_child, is_o};
use widget::fits::{marks_fit, queue_fits};

// How many children a state has, and how many of them are active.
#[derive(Clone, Copy)]
pub struct Tally {
    pub all: u16,
    pub on: u16,
}

// Before any child is counted.
const NO_CHILDREN: Tally = Tally { all: 0, on: 0 };

// The same of every state. One pass over the states: each is counted at its parent.
fn count_children(chart: &[i32], active: &[bool; STATES], tallies: &mut [Tally; STATES])
    requires { tallies.old ≡ replicate states no_children }
    ensures { Tallied (chart_of chart.now) active.now tallies.new }
{
    let n = state_count(chart);
    // From 0, as in the rules: a range from 1 would begin past the end of a chart without states.
    for d in 0..n {
        if d == 0 {
            continue;
        }
        let p = parent_of(chart, d);
        if STATES <= p {
            continue;
        }
        let Tally { all, on } = tallies[p];
        tallies[p] = Tally {
            all: all + 1,
            on: on + u16::from(active[d]),
        };
    }
}

// 01: one child of each o state in it and all children of each a state in it; below a state that is not in it nothing is.
fn legal_at(chart: &[i32], active: &[bool; STATES], s: usize, t: Tally) -> bool
    requires { (s < states) × (t ≡ tally_of (chart_of chart.now) active.now s) }
    ensures { (u : Widget) → u.active ≡ active.now → result ≡ legal_at (chart_of chart.now) u s }
{
    if !active[s] {
        return t.on == 0;
    }
    match kind_of(chart, s) {
        Kind::O => t.on == 1,
        Kind::A => t.on == t.all,
        Kind::B => true,
    }
}

// 01: a legal configuration holds exactly the root, and so on down.
fn legal(chart: &[i32], active: &[bool; STATES]) -> bool
    ensures { (u : Widget) → u.active ≡ active.now → result ≡ legal (chart_of chart.now) u }
{
    if !active[0] {
        return false;
    }
    let n = state_count(chart);
    let mut tallies = [NO_CHILDREN; STATES];
    count_children(chart, active, &mut tallies);
    for s in 0..n {
        if !legal_at(chart, active, s, tallies[s]) {
            return false;
        }
    }
    true
}

// A variable of the chart is in its range; one that it has not is 0.
fn value_fits(chart: &[i32], v: usize, x: i32) -> bool
    ensures { result ≡ value_fits (chart_of chart.now).vars v x }
{
    if v < var_count(chart) {
        let row = var_row(chart, v);
        return between(row.low, x, row.high);
    }
    x == 0
}

// The variables from a place on are 0. Each is looked at, with no way out before the last: so the compiler tests many at once.
fn rest_zero(end: usize, vars: &[i32; VARIABLES]) -> bool
    requires { length vars.now ≡ variables }
    ensures { result ≡ every (eq_z (pos 0)) (drop end vars.now) }
{
    let mut fit = true;
    for v in end..VARIABLES {
        fit &= vars[v] == 0;
    }
    fit
}

// Only the chart's variables are tested one by one.
fn values_fit(chart: &[i32], vars: [i32; VARIABLES]) -> bool
    ensures { result ≡ values_fit (chart_of chart.now).vars vars }
{
    let n = var_count(chart);
    (0..n).all(|v| value_fits(chart, v, vars[v])) && rest_zero(n, &vars)
}

// An empty slot's marker is never taken for a state.
fn filled(x: i32) -> bool
    ensures { result ≡ is_filled (place_of x) }
{
    place_of(x).is_some()
}

// Whether a slot holds a state.
fn holds(slots: &[i32; STATES], s: usize, d: usize) -> bool
    requires { length slots.now ≡ states }
    ensures { (u : Widget) → u.slots ≡ slots.now → result ≡ is_at d (slot u s) }
{
    s < STATES && place_of(slots[s]) == Some(d)
}

// An a state in the slot of its parent.
fn is_held(chart: &[i32], slots: &[i32; STATES], p: usize) -> bool
    requires { length slots.now ≡ states }
    ensures { (u : Widget) → u.slots ≡ slots.now → result ≡ in_slot (chart_of chart.now) u p }
{
    match kind_of(chart, p) {
        Kind::O => false,
        Kind::A => holds(slots, parent_of(chart, p), p),
        Kind::B => false,
    }
}

// The slot of each component of an a state that a slot holds is filled: one look at each state, from it to its parent.
fn components_filled(chart: &[i32], slots: &[i32; STATES]) -> bool
    requires { length slots.now ≡ states }
    ensures { (u : Widget) → u.slots ≡ slots.now → Completes (chart_of chart.now) u result }
{
    let n = state_count(chart);
    for d in 1..n {
        if filled(slots[d]) {
            continue;
        }
        if is_held(chart, slots, parent_of(chart, d)) {
            return false;
        }
    }
    true
}

// 01, answer 6: a filled slot leading to an empty one. Of an a state the caller says whether its components' slots are filled.
fn leads_on(chart: &[i32], slots: &[i32; STATES], d: usize, whole: bool) -> bool
    requires { (length slots.now ≡ states) × (d < states) }
    ensures { (u : Widget) → u.slots ≡ slots.now → result ≡ leads_if whole u (kind_of (chart_of chart.now) d) d }
{
    match kind_of(chart, d) {
        Kind::O => filled(slots[d]),
        Kind::A => whole,
        Kind::B => true,
    }
}

// 01, answer 6: a slot neither -1 nor, at an o state, its child.
fn slot_fits(chart: &[i32], slots: &[i32; STATES], s: usize, x: i32, whole: bool) -> bool
    requires { length slots.now ≡ states }
    ensures { (u : Widget) → u.slots ≡ slots.now → result ≡ slot_if whole (chart_of chart.now) u s x }
{
    let Some(d) = place_of(x) else {
        return x == -1;
    };
    d < state_count(chart)
        && (is_o(kind_of(chart, s)) && (is_child(chart, s, d) && leads_on(chart, slots, d, whole)))
}

// The slots from a place on are empty. Each is looked at, with no way out before the last: so the compiler tests many at once.
pub fn rest_empty(end: usize, slots: &[i32; STATES]) -> bool
    requires { length slots.now ≡ states }
    ensures { result ≡ every (eq_z (negsuc 0)) (drop end slots.now) }
{
    let mut fit = true;
    for s in end..STATES {
        fit &= slots[s] == -1;
    }
    fit
}

// The slots below a place from which on they are empty: an empty one fits whatever the chart.
fn each_fits(chart: &[i32], slots: &[i32; STATES], end: usize, whole: bool) -> bool
    requires { (length slots.now ≡ states) × (end ≤ states) × (every (eq_z (negsuc 0)) (drop end slots.now) ≡ true) }
    ensures { (u : Widget) → u.slots ≡ slots.now → result ≡ slots_if whole (chart_of chart.now) u }
{
    for s in 0..end {
        if !slot_fits(chart, slots, s, slots[s], whole) {
            return false;
        }
    }
    true
}

// A look at the components is made only where a slot is not found to fit without it: where none holds an a state there is none.
fn fit_below(chart: &[i32], slots: &[i32; STATES], end: usize) -> bool
    requires { (length slots.now ≡ states) × (end ≤ states) × (every (eq_z (negsuc 0)) (drop end slots.now) ≡ true) }
    ensures { (u : Widget) → u.slots ≡ slots.now → result ≡ slots_fit (chart_of chart.now) u }
{
    each_fits(chart, slots, end, false)
        || (components_filled(chart, slots) && each_fits(chart, slots, end, true))
}

// Where no slot past the chart's states is filled, only theirs are tested one by one.
fn slots_fit(chart: &[i32], slots: &[i32; STATES]) -> bool
    requires { length slots.now ≡ states }
    ensures { (u : Widget) → u.slots ≡ slots.now → result ≡ slots_fit (chart_of chart.now) u }
{
    let n = state_count(chart);
    if rest_empty(n, slots) {
        return fit_below(chart, slots, n);
    }
    fit_below(chart, slots, STATES)
}

// Whether a started state is the chart's own; else answer 6. The two arrays that are lent are copied first: a field of the state lent
// where it stands has the whole state copied for it.
pub fn own(chart: &[i32], state: State) -> bool
    ensures { result ≡ owns (chart_of chart.now) state }
{
    let active = state.active;
    let slots = state.slots;
    legal(chart, &active)
        && (marks_fit(state_count(chart), active)
            && (values_fit(chart, state.vars)
                && (slots_fit(chart, &slots) && queue_fits(event_count(chart), state.queue))))
}
