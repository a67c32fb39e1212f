// The chart as a lent slice of numbers at fixed places, read by accessors. Each equals a definition of the crate meaning
// over `chart_of` on every input: a place that the chart does not have reads as the definitions say, so that no caller
// has to show that what it asks for is there.
#![tactic(auto)]

pub mod decode;
pub mod kinds;
pub mod layout;

ghost use Rattle.std.specs.Prelude.{◌≡◌, get_or, length, pos};
ghost use Rattle.meaning.specs.Chart.{no_action};
ghost use Rattle.meaning.specs.Tree.{parent_of, kind_of, default_child, var_row, trans_row};
ghost use Rattle.meaning.specs.Value.{chart_of, size_by};

use layout::{
    ACT_ROW, ACTION_COUNT, ACTIONS_AT, EVENT_COUNT, STATE_COUNT, STATE_ROW, STATES_AT, TRANS_ROW,
    TRANSITION_COUNT, TRANSITIONS_AT, VAR_COUNT, VAR_ROW, VARS_AT,
};
use meaning::chart::{Act, ActRow, Guard, Kind, Owner, Target, TransRow, VarRow};
use sizes::{ACTIONS, STATES, TRANSITIONS, VARIABLES};

// The chart's number at i, 0 past the end.
pub fn number_at(chart: &[i32], i: usize) -> i32
    ensures { result ≡ get_or chart.now i (pos 0) }
{
    if i < chart.len() { chart[i] } else { 0 }
}

// The count at i, 0 where it does not keep its size.
pub fn count_at(chart: &[i32], i: usize, most: usize) -> usize
    ensures { result ≡ size_by most (get_or chart.now i (pos 0)) }
{
    let n = numbers::reference(number_at(chart, i));
    if n <= most { n } else { 0 }
}

pub fn state_count(chart: &[i32]) -> usize
    ensures { result ≡ length (chart_of chart.now).states }
{
    count_at(chart, STATE_COUNT, STATES)
}

pub fn var_count(chart: &[i32]) -> usize
    ensures { result ≡ length (chart_of chart.now).vars }
{
    count_at(chart, VAR_COUNT, VARIABLES)
}

pub fn event_count(chart: &[i32]) -> usize
    ensures { result ≡ (chart_of chart.now).events }
{
    numbers::reference(number_at(chart, EVENT_COUNT))
}

pub fn transition_count(chart: &[i32]) -> usize
    ensures { result ≡ length (chart_of chart.now).transitions }
{
    count_at(chart, TRANSITION_COUNT, TRANSITIONS)
}

pub fn action_count(chart: &[i32]) -> usize
    ensures { result ≡ length (chart_of chart.now).actions }
{
    count_at(chart, ACTION_COUNT, ACTIONS)
}

pub fn parent_of(chart: &[i32], s: usize) -> usize
    ensures { result ≡ parent_of (chart_of chart.now) s }
{
    if s < state_count(chart) {
        decode::ref_or_none(number_at(chart, STATES_AT + s * STATE_ROW))
    } else {
        0
    }
}

pub fn kind_of(chart: &[i32], s: usize) -> Kind
    ensures { result ≡ kind_of (chart_of chart.now) s }
{
    if s < state_count(chart) {
        decode::kind_by(number_at(chart, STATES_AT + s * STATE_ROW + 1))
    } else {
        Kind::B
    }
}

pub fn default_child(chart: &[i32], s: usize) -> usize
    ensures { result ≡ default_child (chart_of chart.now) s }
{
    if s < state_count(chart) {
        decode::ref_or_none(number_at(chart, STATES_AT + s * STATE_ROW + 2))
    } else {
        0
    }
}

pub fn var_row(chart: &[i32], v: usize) -> VarRow
    ensures { result ≡ var_row (chart_of chart.now).vars v }
{
    if v < var_count(chart) {
        let at = VARS_AT + v * VAR_ROW;
        VarRow {
            low: number_at(chart, at),
            high: number_at(chart, at + 1),
            first: number_at(chart, at + 2),
        }
    } else {
        VarRow {
            low: 0,
            high: 0,
            first: 0,
        }
    }
}

pub fn trans_row(chart: &[i32], t: usize) -> TransRow
    ensures { result ≡ trans_row (chart_of chart.now) t }
{
    if t < transition_count(chart) {
        let at = TRANSITIONS_AT + t * TRANS_ROW;
        TransRow {
            source: numbers::reference(number_at(chart, at)),
            trigger: numbers::reference(number_at(chart, at + 1)),
            guard: decode::guard_by(
                number_at(chart, at + 2),
                number_at(chart, at + 3),
                number_at(chart, at + 4),
            ),
            target: decode::target_by(number_at(chart, at + 5), number_at(chart, at + 6)),
        }
    } else {
        TransRow {
            source: 0,
            trigger: 0,
            guard: Guard::Always,
            target: Target::InPlace,
        }
    }
}

pub fn action_row(chart: &[i32], i: usize) -> ActRow
    ensures { result ≡ get_or (chart_of chart.now).actions i no_action }
{
    if i < action_count(chart) {
        let at = ACTIONS_AT + i * ACT_ROW;
        ActRow {
            owner: decode::owner_by(number_at(chart, at), number_at(chart, at + 1)),
            act: decode::act_by(
                number_at(chart, at + 2),
                number_at(chart, at + 3),
                number_at(chart, at + 4),
            ),
        }
    } else {
        ActRow {
            owner: Owner::EntryOf(0),
            act: Act::Tell(0),
        }
    }
}
