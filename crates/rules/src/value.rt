// R0 (01, "Chart rules, in order"), for a chart handed over as a value: counts and constants keep their sizes and every
// field is one that a text can state. Each function equals the definition of the same name in the crate meaning, and its
// tests are nested as there.
ghost use Rattle.std.specs.Prelude.{◌≡◌, ◌&&◌, ◌||◌, ◌∷◌, [], ◌<◌, ◌≤◌, pos, length, get_or};
ghost use Rattle.sizes.specs.Sizes.{STATES, VARIABLES, TRANSITIONS, ACTIONS};
ghost use Rattle.numbers.specs.Reference.{NOWHERE};
ghost use Rattle.numbers.specs.Range.{in_range};
ghost use Rattle.meaning.specs.Grammar.{s_record, v_record, t_record, a_record, most};
ghost use Rattle.meaning.specs.Value.{num, is_letter, is_absent, one_of_letters, count_fits, statable, laid, part_fits, rule_0};
ghost use Rattle.meaning.specs.Value.{VALUE as whole};
ghost use Rattle.chart_rows.specs.Kinds.{as_record};
ghost use Rattle.rules.specs.Clauses.{number_if, guard_statable, target_statable, row_in, counted_fits, kind_fits};

use chart_rows::decode::{is_absent, is_letter, one_of_letters};
use chart_rows::kinds::{RECORDS, Record};
use chart_rows::layout::{
    ACT_ROW, ACTIONS_AT, EVENT_COUNT, STATE_ROW, STATES_AT, TRANS_ROW, TRANSITIONS_AT, VALUE,
    VAR_ROW, VARS_AT,
};
use numbers::{between, in_range, number};
use sizes::{EVENTS, LEAST_STATES};

// The number at a place that the value has: its length is tested once, before all else.
fn number_at(chart: &[i32], i: usize) -> i32
    requires { i < length chart.now }
    ensures { result ≡ get_or chart.now i (pos 0) }
{
    chart[i]
}

// A number where it is wanted, else "-".
fn number_if(wanted: bool, z: i32) -> bool
    ensures { result ≡ number_if wanted z }
{
    if wanted { in_range(z) } else { is_absent(z) }
}

// State 0 alone has parent "-"; a default is a number for o, else "-".
fn state_statable(chart: &[i32], n: usize) -> bool
    requires { (n < STATES) × (whole ≤ length chart.now) }
    ensures { result ≡ statable s_record n (row_in s_record n chart.now) }
{
    let at = STATES_AT + n * STATE_ROW;
    let kind = number_at(chart, at + 1);
    number_if(n != 0, number_at(chart, at))
        && (one_of_letters(b"oab", kind)
            && number_if(is_letter(b'o', kind), number_at(chart, at + 2)))
}

fn var_statable(chart: &[i32], i: usize) -> bool
    requires { (i < VARIABLES) × (whole ≤ length chart.now) }
    ensures { result ≡ statable v_record i (row_in v_record i chart.now) }
{
    let at = VARS_AT + i * VAR_ROW;
    in_range(number_at(chart, at))
        && (in_range(number_at(chart, at + 1)) && in_range(number_at(chart, at + 2)))
}

// A guard that is "-" in all three fields.
fn guard_absent(v: i32, g: i32, x: i32) -> bool
    ensures { result ≡ is_absent v && (is_absent g && is_absent x) }
{
    is_absent(v) && (is_absent(g) && is_absent(x))
}

// A guard that is given in all three fields.
fn guard_given(v: i32, g: i32, x: i32) -> bool
    ensures { result ≡ in_range v && (one_of_letters (61 ∷ 60 ∷ 62 ∷ []) g && in_range x) }
{
    in_range(v) && (one_of_letters(b"=<>", g) && in_range(x))
}

// The three guard fields are all "-" or none is.
#[tactic(auto, unfolding(crate::specs::Clauses::guard_statable))]
fn guard_statable(v: i32, g: i32, x: i32) -> bool
    ensures { result ≡ guard_statable v g x }
{
    guard_absent(v, g, x) || guard_given(v, g, x)
}

// A target that is "-".
fn target_absent(h: i32, s: i32) -> bool
    ensures { result ≡ is_absent h && is_absent s }
{
    is_absent(h) && is_absent(s)
}

// A state, or h and a state.
fn target_given(h: i32, s: i32) -> bool
    ensures { result ≡ (is_letter 0 h || is_letter 104 h) && in_range s }
{
    (is_letter(0, h) || is_letter(b'h', h)) && in_range(s)
}

// A state, h and a state, or "-".
#[tactic(auto, unfolding(crate::specs::Clauses::target_statable))]
fn target_statable(h: i32, s: i32) -> bool
    ensures { result ≡ target_statable h s }
{
    target_absent(h, s) || target_given(h, s)
}

fn trans_statable(chart: &[i32], i: usize) -> bool
    requires { (i < TRANSITIONS) × (whole ≤ length chart.now) }
    ensures { result ≡ statable t_record i (row_in t_record i chart.now) }
{
    let at = TRANSITIONS_AT + i * TRANS_ROW;
    in_range(number_at(chart, at))
        && (in_range(number_at(chart, at + 1))
            && (guard_statable(
                number_at(chart, at + 2),
                number_at(chart, at + 3),
                number_at(chart, at + 4),
            ) && target_statable(number_at(chart, at + 5), number_at(chart, at + 6))))
}

// Acts s, a and q have a number as their second field, k and o "-".
fn action_statable(chart: &[i32], i: usize) -> bool
    requires { (i < ACTIONS) × (whole ≤ length chart.now) }
    ensures { result ≡ statable a_record i (row_in a_record i chart.now) }
{
    let at = ACTIONS_AT + i * ACT_ROW;
    let act = number_at(chart, at + 2);
    one_of_letters(b"exdt", number_at(chart, at))
        && (in_range(number_at(chart, at + 1))
            && (one_of_letters(b"sakqo", act)
                && (in_range(number_at(chart, at + 3))
                    && number_if(one_of_letters(b"saq", act), number_at(chart, at + 4)))))
}

// Is the number at this place a count within its size?
fn count_fits(chart: &[i32], place: usize, least: usize, most: usize) -> bool
    requires { (least < NOWHERE) × (most < NOWHERE) }
    ensures { result ≡ count_fits least most (num chart.now place) }
{
    between(
        number(least),
        chart_rows::number_at(chart, place),
        number(most),
    )
}

// Row i of a kind.
fn row_statable(chart: &[i32], kind: Record, i: usize) -> bool
    requires { (i < most (as_record kind)) × (whole ≤ length chart.now) }
    ensures { result ≡ statable (as_record kind) i (row_in (as_record kind) i chart.now) }
{
    match kind {
        Record::State => state_statable(chart, i),
        Record::Variable => var_statable(chart, i),
        Record::Events => count_fits(chart, EVENT_COUNT + i, 0, EVENTS),
        Record::Transition => trans_statable(chart, i),
        Record::Action => action_statable(chart, i),
    }
}

// The rows of a kind.
fn rows_statable(chart: &[i32], kind: Record) -> bool
    requires { whole ≤ length chart.now }
    ensures { result ≡ part_fits chart.now (laid (as_record kind)) }
{
    for i in 0..kind.how_many(chart) {
        if !row_statable(chart, kind, i) {
            return false;
        }
    }
    true
}

// Does the count of a kind keep its size? There are at least two states; E has no count.
fn kind_counted(chart: &[i32], kind: Record) -> bool
    ensures { result ≡ counted_fits chart.now (as_record kind) }
{
    let area = kind.area();
    match kind {
        Record::State => count_fits(chart, area.count, LEAST_STATES, area.most),
        Record::Events => true,
        _ => count_fits(chart, area.count, 0, area.most),
    }
}

fn kind_fits(chart: &[i32], kind: Record) -> bool
    requires { whole ≤ length chart.now }
    ensures { result ≡ kind_fits chart.now (as_record kind) }
{
    kind_counted(chart, kind) && rows_statable(chart, kind)
}

// R0; numbers too few for the layout do not state a chart.
pub fn rule_0(chart: &[i32]) -> bool
    ensures { result ≡ rule_0 chart.now }
{
    if chart.len() < VALUE {
        return false;
    }
    for kind in RECORDS {
        if !kind_fits(chart, kind) {
            return false;
        }
    }
    true
}
