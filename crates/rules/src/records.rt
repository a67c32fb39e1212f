// R5 to R7 (01, "Chart rules, in order"): the variables, the transitions and the actions. Each function equals the
// definition of the same name in the crate meaning, on every input.
ghost use Rattle.std.specs.Prelude.{◌≡◌, ◌<◌, length, get_or};
ghost use Rattle.meaning.specs.Chart.{no_action};
ghost use Rattle.meaning.specs.Tree.{trans_row};
ghost use Rattle.meaning.specs.Rules.{is_var, row_fits, guard_fits, target_fits, transition_fits, owner_fits, within_row};
ghost use Rattle.meaning.specs.Rules.{act_fits, action_fits};
ghost use Rattle.meaning.specs.Rules.{rule_5, rule_6, rule_7};
ghost use Rattle.meaning.specs.Value.{chart_of};

use super::states::is_state;
use chart_rows::decode::{act_by, guard_by, owner_by, target_by};
use chart_rows::layout::{ACT_ROW, ACTIONS_AT, TRANS_ROW, TRANSITIONS_AT};
use chart_rows::{
    action_count, event_count, kind_of, number_at, transition_count, var_count, var_row,
};
use meaning::chart::{Act, Guard, Owner, Target, VarRow};
use numbers::{between, reference};
use tree::kin::is_o;

// Does the chart have the variable v?
pub fn is_var(chart: &[i32], v: usize) -> bool
    ensures { result ≡ is_var (chart_of chart.now) v }
{
    v < var_count(chart)
}

// R5 of one variable: low ≤ first ≤ high.
fn row_fits(row: VarRow) -> bool
    ensures { result ≡ row_fits row }
{
    between(row.low, row.first, row.high)
}

pub fn rule_5(chart: &[i32]) -> bool
    ensures { result ≡ rule_5 (chart_of chart.now) }
{
    (0..var_count(chart)).all(|i| row_fits(var_row(chart, i)))
}

// R6: the guard variable exists.
fn guard_fits(chart: &[i32], guard: Guard) -> bool
    ensures { result ≡ guard_fits (chart_of chart.now) guard }
{
    match guard {
        Guard::Always => true,
        Guard::Compares(v, _, _) => is_var(chart, v),
    }
}

// R6: the target of a transition from s exists and is never the root; a history belongs to an o state; the root is a
// source only of reactions in place.
fn target_fits(chart: &[i32], s: usize, target: Target) -> bool
    ensures { result ≡ target_fits (chart_of chart.now) s target }
{
    match target {
        Target::To(t) => is_state(chart, t) && (t != 0 && s != 0),
        Target::History(b) => is_state(chart, b) && (b != 0 && (is_o(kind_of(chart, b)) && s != 0)),
        Target::InPlace => true,
    }
}

// R6 of one transition, whose numbers are read where they stand; the tests are nested as in the definition.
#[tactic(auto, using(chart_rows::proofs::Rows::transitions_most))]
fn transition_fits(chart: &[i32], i: usize) -> bool
    requires { i < length (chart_of chart.now).transitions }
    ensures { result ≡ transition_fits (chart_of chart.now) (trans_row (chart_of chart.now) i) }
{
    let at = TRANSITIONS_AT + i * TRANS_ROW;
    let source = reference(number_at(chart, at));
    is_state(chart, source)
        && (reference(number_at(chart, at + 1)) <= event_count(chart)
            && (guard_fits(
                chart,
                guard_by(
                    number_at(chart, at + 2),
                    number_at(chart, at + 3),
                    number_at(chart, at + 4),
                ),
            ) && target_fits(
                chart,
                source,
                target_by(number_at(chart, at + 5), number_at(chart, at + 6)),
            )))
}

pub fn rule_6(chart: &[i32]) -> bool
    ensures { result ≡ rule_6 (chart_of chart.now) }
{
    (0..transition_count(chart)).all(|i| transition_fits(chart, i))
}

// R7: the owner exists; a d owner is an o state.
fn owner_fits(chart: &[i32], owner: Owner) -> bool
    ensures { result ≡ owner_fits (chart_of chart.now) owner }
{
    match owner {
        Owner::EntryOf(s) | Owner::ExitOf(s) => is_state(chart, s),
        Owner::DefaultOf(s) => is_state(chart, s) && is_o(kind_of(chart, s)),
        Owner::TransitionOf(t) => t < transition_count(chart),
    }
}

// R7: a set constant is in its variable's range.
fn within_row(row: VarRow, x: i32) -> bool
    ensures { result ≡ within_row row x }
{
    between(row.low, x, row.high)
}

// R7: the variable or event of an act exists (a sent event is 1 or more).
fn act_fits(chart: &[i32], act: Act) -> bool
    ensures { result ≡ act_fits (chart_of chart.now) act }
{
    match act {
        Act::SetTo(v, x) => is_var(chart, v) && within_row(var_row(chart, v), x),
        Act::AddTo(v, _) | Act::TakeTo(v) => is_var(chart, v),
        Act::Send(e, _) => 1 <= e && e <= event_count(chart),
        Act::Tell(_) => true,
    }
}

// R7 of one action, whose numbers are read where they stand.
#[tactic(auto, using(chart_rows::proofs::Rows::actions_most))]
fn action_fits(chart: &[i32], i: usize) -> bool
    requires { i < length (chart_of chart.now).actions }
    ensures { result ≡ action_fits (chart_of chart.now) (get_or (chart_of chart.now).actions i no_action) }
{
    let at = ACTIONS_AT + i * ACT_ROW;
    owner_fits(
        chart,
        owner_by(number_at(chart, at), number_at(chart, at + 1)),
    ) && act_fits(
        chart,
        act_by(
            number_at(chart, at + 2),
            number_at(chart, at + 3),
            number_at(chart, at + 4),
        ),
    )
}

pub fn rule_7(chart: &[i32]) -> bool
    ensures { result ≡ rule_7 (chart_of chart.now) }
{
    (0..action_count(chart)).all(|i| action_fits(chart, i))
}
