// The blocks (01, "A block"): the states left, the way to a target or to the owner of a history, the block of a transition, and the
// start block.
#![tactic(auto)]

pub mod arms;
pub mod kids;
pub mod pieces;

ghost use Rattle.std.specs.Prelude.{◌≡◌, ◌<◌, length};
ghost use Rattle.meaning.specs.Compile.{exits_code, block, start_block};
ghost use Rattle.meaning.specs.Entry.{below};
ghost use Rattle.meaning.specs.Lists.{concat_map};
ghost use Rattle.meaning.specs.Tree.{kind_of as kind_in, descendants};
ghost use Rattle.meaning.specs.Value.{chart_of};
ghost use Rattle.tree.specs.Courses.{goal_way, defaulting, visit_as, Inside};
ghost use Rattle.emitter.specs.Pen.{pen, emits, Room};
ghost use Rattle.blocks.specs.Parts.{goal_code, move_code};

use acts::index::Runnable;
use arms::{put_arms, put_defaults};
use chart_rows::{state_count, trans_row};
use emitter::WIDTH;
use emitter::actions::put_acts;
use kids::kids_within;
use meaning::chart::Owner;
use pieces::{put_enter, put_exit, put_visit};
use tree::kin::is_child;
use tree::walks::{end_below, scope};
use tree::ways::{Goal, aim_of, aimed, next_of};

// "for each state of the span, falling": those below s.
fn put_exits(c: &Runnable, s: usize, plan: &mut [i32], at: usize) -> usize
    requires { (s < length (chart_of c.now.chart.now).states)
        × Room (exits_code (chart_of c.now.chart.now) (descendants (chart_of c.now.chart.now) s)) at }
    ensures { pen plan.new result ≡ emits (exits_code (chart_of c.now.chart.now)
        (descendants (chart_of c.now.chart.now) s)) (pen plan.old at) }
{
    let mut p = at;
    for d in (s + 1..end_below(c.chart, s)).rev() {
        p = put_exit(c, d, plan, p);
    }
    p
}

// Enters s, a child of p on the way to the goal; "After a history owner B and its entry actions", the arms.
fn put_arrival(c: &Runnable, goal: Goal, p: usize, s: usize, plan: &mut [i32], at: usize) -> usize
    requires { (p < length (chart_of c.now.chart.now).states)
        × (s < length (chart_of c.now.chart.now).states) × Room (goal_code (chart_of c.now.chart.now)
        goal (visit_as (defaulting (kind_in (chart_of c.now.chart.now) p) (goal_way (chart_of c.now.chart.now) goal p)) p s)) at }
    ensures { pen plan.new result ≡ emits (goal_code (chart_of c.now.chart.now) goal
        (visit_as (defaulting (kind_in (chart_of c.now.chart.now) p) (goal_way (chart_of c.now.chart.now) goal p)) p s))
        (pen plan.old at) }
{
    let next = next_of(c.chart, goal, p);
    let q = put_visit(c, next, p, s, plan, at);
    let Goal::Owner(b) = goal else {
        return q;
    };
    if s != b {
        return q;
    }
    put_arms(c, b, plan, q)
}

// Below s the way to the goal; components off it by default. `put_defaults` stays beside it: the arms at a history's owner go down by
// defaults, so that one descent for both would call itself through them too, and `left` alone, which starts anew there, would not fall.
fn put_towards(
    c: &Runnable,
    goal: Goal,
    s: usize,
    left: usize,
    plan: &mut [i32],
    at: usize,
) -> usize
    requires { Inside (chart_of c.now.chart.now) goal
        × (s < length (chart_of c.now.chart.now).states) × Room (concat_map (goal_code (chart_of c.now.chart.now) goal)
        (below (chart_of c.now.chart.now) (goal_way (chart_of c.now.chart.now) goal) left s)) at }
    ensures { pen plan.new result ≡ emits (concat_map (goal_code (chart_of c.now.chart.now) goal) (below
        (chart_of c.now.chart.now) (goal_way (chart_of c.now.chart.now) goal) left s)) (pen plan.old at) }
{
    let kids = kids_within(c.chart, s, next_of(c.chart, goal, s), left);
    let mut p = at;
    for d in kids.first..kids.end {
        if !is_child(c.chart, s, d) {
            continue;
        }
        p = put_arrival(c, goal, s, d, plan, p);
        p = put_towards(c, goal, d, left - 1, plan, p);
    }
    p
}

// The states below the scope left, the transition's actions, the way to the goal.
fn put_move(c: &Runnable, t: usize, goal: Goal, top: usize, plan: &mut [i32], at: usize) -> usize
    requires { (t < length (chart_of c.now.chart.now).transitions) × Inside (chart_of c.now.chart.now)
        goal × (top < length (chart_of c.now.chart.now).states) × Room (move_code (chart_of c.now.chart.now) t goal top) at }
    ensures { pen plan.new result
        ≡ emits (move_code (chart_of c.now.chart.now) t goal top) (pen plan.old at) }
{
    let left = state_count(c.chart);
    let p = put_exits(c, top, plan, at);
    let q = put_acts(c, Owner::TransitionOf(t), plan, p);
    put_towards(c, goal, top, left, plan, q)
}

// The block of a transition; "In-place blocks hold only actions".
pub fn put_block(c: &Runnable, t: usize, plan: &mut [i32], at: usize) -> usize
    requires { (t < length (chart_of c.now.chart.now).transitions) × Room (block (chart_of c.now.chart.now) t) at }
    ensures { pen plan.new result ≡ emits (block (chart_of c.now.chart.now) t) (pen plan.old at) }
{
    let row = trans_row(c.chart, t);
    let target = row.target;
    let aim = aim_of(target);
    let Some(goal) = aim else {
        return put_acts(c, Owner::TransitionOf(t), plan, at);
    };
    let top = scope(c.chart, row.source, aimed(goal));
    put_move(c, t, goal, top, plan, at)
}

// How many instructions the block of a transition has.
pub fn block_length(c: &Runnable, t: usize) -> usize
    requires { (t < length (chart_of c.now.chart.now).transitions) × Room (block (chart_of c.now.chart.now) t) 0 }
    ensures { result ≡ length (block (chart_of c.now.chart.now) t) }
{
    put_block(c, t, &mut [], 0) / WIDTH
}

// The root and its defaults.
pub fn put_start(c: &Runnable, plan: &mut [i32], at: usize) -> usize
    requires { Room (start_block (chart_of c.now.chart.now)) at }
    ensures { pen plan.new result ≡ emits (start_block (chart_of c.now.chart.now)) (pen plan.old at) }
{
    let left = state_count(c.chart);
    let p = put_enter(c, 0, plan, at);
    put_defaults(c, 0, left, plan, p)
}
