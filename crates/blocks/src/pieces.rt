// What a block has for one state (01, "A block"): leaving it, entering it, with its parent's default actions where due, and entering it
// again in a restore.
ghost use Rattle.std.specs.Prelude.{◌≡◌, ◌<◌, length};
ghost use Rattle.meaning.specs.Compile.{exit_code, enter_code, visit_code, stored_code};
ghost use Rattle.meaning.specs.Tree.{kind_of as kind_in};
ghost use Rattle.meaning.specs.Value.{chart_of};
ghost use Rattle.tree.specs.Courses.{way_by, defaulting, visit_as};
ghost use Rattle.emitter.specs.Pen.{pen, emits, Room};

use acts::index::Runnable;
use chart_rows::{kind_of, parent_of};
use emitter::actions::{act_count, put_acts};
use emitter::put_instr;
use meaning::chart::Owner;
use meaning::plan::Instr;
use tree::kin::{is_o, o_parent};
use tree::ways::{Next, by_default};

// "SKIPOUT s k+1, OUT s, the actions"
pub fn put_exit(c: &Runnable, s: usize, plan: &mut [i32], at: usize) -> usize
    requires { (s < length (chart_of c.now.chart.now).states) × Room (exit_code (chart_of c.now.chart.now) s) at }
    ensures { pen plan.new result ≡ emits (exit_code (chart_of c.now.chart.now) s) (pen plan.old at) }
{
    let k = act_count(c, Owner::ExitOf(s));
    let p = put_instr(plan, at, Instr::SkipOut(s, k + 1));
    let up = o_parent(c.chart, s);
    let q = put_instr(plan, p, Instr::Out(s, up));
    put_acts(c, Owner::ExitOf(s), plan, q)
}

// "IN, entry actions"
pub fn put_enter(c: &Runnable, s: usize, plan: &mut [i32], at: usize) -> usize
    requires { (s < length (chart_of c.now.chart.now).states) × Room (enter_code (chart_of c.now.chart.now) s) at }
    ensures { pen plan.new result ≡ emits (enter_code (chart_of c.now.chart.now) s) (pen plan.old at) }
{
    let p = put_instr(plan, at, Instr::In(s));
    put_acts(c, Owner::EntryOf(s), plan, p)
}

// "Default actions where due, IN, entry actions": s is a child of p, which goes on so.
pub fn put_visit(c: &Runnable, next: Next, p: usize, s: usize, plan: &mut [i32], at: usize) -> usize
    requires { (p < length (chart_of c.now.chart.now).states) × (s < length (chart_of c.now.chart.now).states) ×
        Room (visit_code (chart_of c.now.chart.now) (visit_as (defaulting (kind_in (chart_of c.now.chart.now) p) (way_by next)) p s)) at }
    ensures { pen plan.new result ≡ emits (visit_code (chart_of c.now.chart.now)
        (visit_as (defaulting (kind_in (chart_of c.now.chart.now) p) (way_by next)) p s)) (pen plan.old at) }
{
    if !by_default(c.chart, p, next) {
        return put_enter(c, s, plan, at);
    }
    let q = put_acts(c, Owner::DefaultOf(p), plan, at);
    put_enter(c, s, plan, q)
}

// "SKIPOUT p past all of d; SKIPNOT p d k+1 if p is kind o; IN d; its actions"
pub fn put_stored(c: &Runnable, d: usize, plan: &mut [i32], at: usize) -> usize
    requires { (0 < d) × (d < length (chart_of c.now.chart.now).states) × Room (stored_code (chart_of c.now.chart.now) d) at }
    ensures { pen plan.new result ≡ emits (stored_code (chart_of c.now.chart.now) d) (pen plan.old at) }
{
    let p = parent_of(c.chart, d);
    let k = act_count(c, Owner::EntryOf(d));
    if !is_o(kind_of(c.chart, p)) {
        let q = put_instr(plan, at, Instr::SkipOut(p, k + 1));
        return put_enter(c, d, plan, q);
    }
    let q = put_instr(plan, at, Instr::SkipOut(p, k + 2));
    let r = put_instr(plan, q, Instr::SkipNot(p, d, k + 1));
    put_enter(c, d, plan, r)
}
