// The two arms after a history's owner (01, "A block"): all below it by default, and all below it by the slots. `left` is how many
// states there can be below this one: it falls with every level.
ghost use Rattle.std.specs.Prelude.{◌≡◌, ◌<◌, length};
ghost use Rattle.meaning.specs.Compile.{visit_code, stored_arm, default_arm, arms};
ghost use Rattle.meaning.specs.Entry.{below, by_defaults};
ghost use Rattle.meaning.specs.Lists.{concat_map};
ghost use Rattle.meaning.specs.Value.{chart_of};
ghost use Rattle.emitter.specs.Pen.{pen, emits, Room};

use super::kids::kids_within;
use super::pieces::{put_stored, put_visit};
use acts::index::Runnable;
use chart_rows::state_count;
use emitter::{WIDTH, put_instr};
use meaning::plan::Instr;
use tree::kin::is_child;
use tree::walks::end_below;
use tree::ways::Next;

// Below s everything by default.
pub fn put_defaults(c: &Runnable, s: usize, left: usize, plan: &mut [i32], at: usize) -> usize
    requires { (s < length (chart_of c.now.chart.now).states)
        × Room (concat_map (visit_code (chart_of c.now.chart.now)) (below (chart_of c.now.chart.now) by_defaults left s)) at }
    ensures { pen plan.new result ≡ emits (concat_map (visit_code (chart_of c.now.chart.now))
        (below (chart_of c.now.chart.now) by_defaults left s)) (pen plan.old at) }
{
    let next = Next::Defaults;
    let kids = kids_within(c.chart, s, next, left);
    let mut p = at;
    for d in kids.first..kids.end {
        if !is_child(c.chart, s, d) {
            continue;
        }
        p = put_visit(c, next, s, d, plan, p);
        p = put_defaults(c, d, left - 1, plan, p);
    }
    p
}

// How many instructions the default arm of b has.
fn default_length(c: &Runnable, b: usize) -> usize
    requires { (b < length (chart_of c.now.chart.now).states) × Room (default_arm (chart_of c.now.chart.now) b) 0 }
    ensures { result ≡ length (default_arm (chart_of c.now.chart.now) b) }
{
    put_defaults(c, b, state_count(c.chart), &mut [], 0) / WIDTH
}

// "for each proper descendant d of B, rising"
fn put_stored_arm(c: &Runnable, b: usize, plan: &mut [i32], at: usize) -> usize
    requires { (b < length (chart_of c.now.chart.now).states) × Room (stored_arm (chart_of c.now.chart.now) b) at }
    ensures { pen plan.new result ≡ emits (stored_arm (chart_of c.now.chart.now) b) (pen plan.old at) }
{
    let mut p = at;
    for d in b + 1..end_below(c.chart, b) {
        p = put_stored(c, d, plan, p);
    }
    p
}

// How many instructions the stored arm of b has.
fn stored_length(c: &Runnable, b: usize) -> usize
    requires { (b < length (chart_of c.now.chart.now).states) × Room (stored_arm (chart_of c.now.chart.now) b) 0 }
    ensures { result ≡ length (stored_arm (chart_of c.now.chart.now) b) }
{
    put_stored_arm(c, b, &mut [], 0) / WIDTH
}

// "SKIPFULL B over the default arm; the arm; SKIPEMPTY B over the stored arm; the arm"
pub fn put_arms(c: &Runnable, b: usize, plan: &mut [i32], at: usize) -> usize
    requires { (b < length (chart_of c.now.chart.now).states)
        × Room (arms (chart_of c.now.chart.now) b) at }
    ensures { pen plan.new result ≡ emits (arms (chart_of c.now.chart.now) b) (pen plan.old at) }
{
    let k = default_length(c, b);
    let m = stored_length(c, b);
    let left = state_count(c.chart);
    let p = put_instr(plan, at, Instr::SkipFull(b, k));
    let q = put_defaults(c, b, left, plan, p);
    let r = put_instr(plan, q, Instr::SkipEmpty(b, m));
    put_stored_arm(c, b, plan, r)
}
