// The heads (01, "The plan"): ten numbers for each transition in choosing order, with where its block begins and how long it is.
ghost use Rattle.std.specs.Prelude.{◌≡◌, ◌<◌, ◌+◌, ◌*◌, length as count_of};
ghost use Rattle.numbers.specs.Reference.{NOWHERE};
ghost use Rattle.meaning.specs.Compile.{head_of, heads_from, head_order, start_block};
ghost use Rattle.meaning.specs.Lists.{concat_map};
ghost use Rattle.meaning.specs.Plan.{sign_number, guard_numbers, head_numbers};
ghost use Rattle.meaning.specs.Value.{chart_of};
ghost use Rattle.meaning.specs.Rules.{Ruled};
ghost use Rattle.choice.specs.Choice.{Reads};
ghost use Rattle.emitter.specs.Pen.{pen, puts};

use acts::index::Runnable;
use blocks::block_length;
use chart_rows::trans_row;
use choice::span_of;
use emitter::put_all;
use meaning::chart::{Guard, Sign};
use numbers::number;

// "sign (0 none, 1 =, 2 <, 3 >)"
fn sign_number(sign: Sign) -> i32
    ensures { result ≡ sign_number sign }
{
    sign as i32
}

// "guard variable (-1 none), sign (0 none, ..), constant (0 if none)"
fn put_guard(plan: &mut [i32], at: usize, guard: Guard) -> usize
    requires { Reads guard × (at + 3 < NOWHERE) }
    ensures { pen plan.new result ≡ puts (guard_numbers guard) (pen plan.old at) }
{
    match guard {
        Guard::Always => put_all(plan, at, &[-1, 0, 0]),
        Guard::Compares(v, sign, x) => put_all(plan, at, &[number(v), sign_number(sign), x]),
    }
}

// The head of transition t, whose block begins at a place and has some length.
fn put_head(
    chart: &[i32],
    t: usize,
    start: usize,
    length: usize,
    plan: &mut [i32],
    at: usize,
) -> usize
    requires { Ruled chart.now × (t < count_of (chart_of chart.now).transitions)
        × (start < NOWHERE) × (length < NOWHERE) × (at + 10 < NOWHERE) }
    ensures { pen plan.new result
        ≡ puts (head_numbers (head_of (chart_of chart.now) start length t)) (pen plan.old at) }
{
    let row = trans_row(chart, t);
    let target = row.target;
    let guard = row.guard;
    let span = span_of(chart, row.source, target);
    let p = put_all(
        plan,
        at,
        &[number(t), number(row.source), number(row.trigger)],
    );
    let q = put_guard(plan, p, guard);
    let last = span.end - 1;
    put_all(
        plan,
        q,
        &[
            number(span.first),
            number(last),
            number(start),
            number(length),
        ],
    )
}

// The heads of all transitions, whose blocks follow one another behind the start block.
pub fn put_heads(c: &Runnable, order: &[usize], start: usize, plan: &mut [i32], at: usize) -> usize
    requires { (order.now ≡ head_order (chart_of c.now.chart.now))
        × (start ≡ count_of (start_block (chart_of c.now.chart.now))) × (at + 10 * count_of order.now < NOWHERE) }
    ensures { pen plan.new result ≡ puts (concat_map head_numbers (heads_from (chart_of c.now.chart.now)
        start (head_order (chart_of c.now.chart.now)))) (pen plan.old at) }
{
    let mut p = at;
    let mut from = start;
    for t in order {
        let k = block_length(c, *t);
        p = put_head(c.chart, *t, from, k, plan, p);
        from += k;
    }
    p
}
