// The plan's compiler (01, "The plan"): six numbers, the variables, the heads, the code. How long the plan will be is known before any
// number of it is written.
#![tactic(auto)]

pub mod heads;
pub mod order;

ghost use Rattle.std.specs.Prelude.{◌≡◌, ◌<◌, ◌+◌, ◌*◌, length as count_of};
ghost use Rattle.sizes.specs.Sizes.{VARIABLES};
ghost use Rattle.numbers.specs.Reference.{NOWHERE};
ghost use Rattle.meaning.specs.Compile.{block, head_order, start_block, code_of, plan_of};
ghost use Rattle.meaning.specs.Lists.{concat_map};
ghost use Rattle.meaning.specs.Plan.{var_numbers, six};
ghost use Rattle.meaning.specs.Value.{chart_of};
ghost use Rattle.meaning.specs.Rules.{Ruled};
ghost use Rattle.emitter.specs.Pen.{pen, puts, emits, Room};
ghost use Rattle.compiler.specs.Plans.{Compiles};

use acts::index::Runnable;
use blocks::{put_block, put_start};
use chart_rows::{event_count, state_count, var_count, var_row};
use emitter::{WIDTH, put_all};
use heads::put_heads;
use meaning::Answer;
use meaning::answers::PLAN_TOO_LONG;
use meaning::plan::Compiled;
use numbers::number;
use order::order_of;
use sizes::TRANSITIONS;
use widget::clear_from;

// "the blocks in head order"
fn put_blocks(c: &Runnable, order: &[usize], plan: &mut [i32], at: usize) -> usize
    requires { (order.now ≡ head_order (chart_of c.now.chart.now))
        × Room (concat_map (block (chart_of c.now.chart.now)) (head_order (chart_of c.now.chart.now))) at }
    ensures { pen plan.new result ≡ emits (concat_map (block (chart_of c.now.chart.now))
        (head_order (chart_of c.now.chart.now))) (pen plan.old at) }
{
    let mut p = at;
    for t in order {
        p = put_block(c, *t, plan, p);
    }
    p
}

// "the start block, then the blocks in head order, no gaps"
fn put_code(c: &Runnable, order: &[usize], plan: &mut [i32], at: usize) -> usize
    requires { (order.now ≡ head_order (chart_of c.now.chart.now)) × Room (code_of (chart_of c.now.chart.now)) at }
    ensures { pen plan.new result ≡ emits (code_of (chart_of c.now.chart.now)) (pen plan.old at) }
{
    let p = put_start(c, plan, at);
    put_blocks(c, order, plan, p)
}

// How many instructions the start block has.
fn start_length(c: &Runnable) -> usize
    ensures { result ≡ count_of (start_block (chart_of c.now.chart.now)) }
{
    put_start(c, &mut [], 0) / WIDTH
}

// How many instructions there are in all.
fn code_length(c: &Runnable, order: &[usize]) -> usize
    requires { (order.now ≡ head_order (chart_of c.now.chart.now)) }
    ensures { result ≡ count_of (code_of (chart_of c.now.chart.now)) }
{
    put_code(c, order, &mut [], 0) / WIDTH
}

// "low, high, first for each variable"
fn put_vars(chart: &[i32], plan: &mut [i32], at: usize) -> usize
    requires { at + 3 * VARIABLES < NOWHERE }
    ensures { pen plan.new result
        ≡ puts (concat_map var_numbers (chart_of chart.now).vars) (pen plan.old at) }
{
    let n = var_count(chart);
    let mut p = at;
    for v in 0..n {
        let row = var_row(chart, v);
        p = put_all(plan, p, &[row.low, row.high, row.first]);
    }
    p
}

// "Six: states, variables, events, heads, instructions, start block length"
fn put_six(chart: &[i32], heads: usize, code: usize, start: usize, plan: &mut [i32]) -> usize
    requires { Ruled chart.now × (heads ≡ count_of (head_order (chart_of chart.now)))
        × (code ≡ count_of (code_of (chart_of chart.now))) × (start ≡ count_of (start_block (chart_of chart.now))) }
    ensures { pen plan.new result ≡ puts (six (plan_of (chart_of chart.now))) (pen plan.old 0) }
{
    let states = state_count(chart);
    let vars = var_count(chart);
    let events = event_count(chart);
    let p = put_all(plan, 0, &[number(states), number(vars), number(events)]);
    put_all(plan, p, &[number(heads), number(code), number(start)])
}

// The plan of a chart that passes the rules; 4 where it is longer than the slice.
fn compile_passed(chart: &[i32], plan: &mut [i32]) -> Compiled
    requires { Ruled chart.now }
    ensures { Compiles chart.now plan.old result plan.new }
{
    let c = Runnable::new(chart);
    let mut numbers = [0usize; TRANSITIONS];
    let heads = order_of(c.chart, &mut numbers);
    let order = &numbers[..heads];
    let start = start_length(&c);
    let code = code_length(&c, order);
    let vars = var_count(c.chart);
    let length = 6 + 3 * vars + 10 * heads + WIDTH * code;
    if plan.len() < length {
        clear_from(plan, 0); // too long
        let answer = Answer {
            number: PLAN_TOO_LONG,
            place: 0,
        };
        return Compiled { answer, length: 0 };
    }
    let p0 = put_six(c.chart, heads, code, start, plan);
    let p1 = put_vars(c.chart, plan, p0);
    let p2 = put_heads(&c, order, start, plan, p1);
    let end = put_code(&c, order, plan, p2);
    clear_from(plan, end);
    let answer = Answer {
        number: 0,
        place: 0,
    };
    Compiled {
        answer,
        length: end,
    }
}

// A chart compiled: 3 with the rule where the value fails one of R0 to R7, 4 where the plan is longer than the slice, else the plan and
// 0 past it, with its length. A refusal leaves the slice 0.
pub fn compile(chart: &[i32], plan: &mut [i32]) -> Compiled
    ensures { Compiles chart.now plan.old result plan.new }
{
    if let Err(refusal) = rules::check(chart) {
        clear_from(plan, 0);
        let answer = Answer {
            number: refusal.number(),
            place: refusal.place(),
        };
        return Compiled { answer, length: 0 };
    }
    compile_passed(chart, plan)
}
