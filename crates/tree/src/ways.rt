// With which children a state goes on (01, "Firing" and "History"): by default, by its slot, towards a target or the owner
// of a history; and the numbers among which these children are.
ghost use Rattle.std.specs.Prelude.{◌≡◌, ◌<◌, length};
ghost use Rattle.sizes.specs.Sizes.{STATES as states};
ghost use Rattle.meaning.specs.Tree.{kind_of as kind_in};
ghost use Rattle.meaning.specs.Value.{chart_of};
ghost use Rattle.meaning.specs.Entry.{towards};
ghost use Rattle.meaning.specs.Rules.{Ruled};
ghost use Rattle.tree.specs.Aims.{aim_by, aimed_at};
ghost use Rattle.tree.specs.Courses.{way_by, slot_of as slot_in, stored_way, goal_way, course_way, restoring, onward_goal};
ghost use Rattle.tree.specs.Courses.{onward_from, defaulting, OnChild, Kids};

use super::kin::is_o;
use super::walks::path_child;
use chart_rows::{default_child, kind_of, state_count};
use meaning::chart::{Kind, Target};
use numbers::place_of;
use sizes::STATES;

// How an o state goes on: with one child, with its default, or not at all.
#[derive(Clone, Copy)]
pub enum Next {
    OnTo(usize),
    Defaults,
    Stops,
}

// Where a descent leads: to a target, or to the owner of a history and no further.
#[derive(Clone, Copy)]
pub enum Goal {
    Target(usize),
    Owner(usize),
}

// Where a transition leads: the one place that goes by the three forms of a target. A reaction in place leads nowhere.
pub fn aim_of(target: Target) -> Option<Goal>
    ensures { result ≡ aim_by target }
{
    match target {
        Target::To(t) => Some(Goal::Target(t)),
        Target::History(b) => Some(Goal::Owner(b)),
        Target::InPlace => None,
    }
}

// The state that a goal is: the target, or the owner.
pub fn aimed(goal: Goal) -> usize
    ensures { result ≡ aimed_at goal }
{
    match goal {
        Goal::Target(t) => t,
        Goal::Owner(b) => b,
    }
}

// How a descent goes on below a state: by default, by the slots, or towards a goal.
#[derive(Clone, Copy)]
pub enum Course {
    Defaults,
    Slots,
    Towards(Goal),
}

// The children of a state that are entered are among the numbers from first up to below end.
#[derive(Drop)]
pub struct Children {
    pub first: usize,
    pub end: usize,
}

// "In each a state every component"; an o state goes on with one child.
pub fn goes_on(chart: &[i32], s: usize, next: Next) -> Children
    requires { Ruled chart.now × (s < length (chart_of chart.now).states) × OnChild (chart_of chart.now) s (way_by next) }
    ensures { Kids (chart_of chart.now) (way_by next) s result.first result.end }
{
    let kind = kind_of(chart, s);
    match kind {
        Kind::O => match next {
            Next::OnTo(d) => Children {
                first: d,
                end: d + 1,
            },
            Next::Defaults => {
                let d = default_child(chart, s);
                Children {
                    first: d,
                    end: d + 1,
                }
            }
            Next::Stops => Children { first: s, end: s },
        },
        Kind::A => Children {
            first: s + 1,
            end: state_count(chart),
        },
        Kind::B => Children { first: s, end: s },
    }
}

// Whether a state that goes on so enters its child by default.
pub fn by_default(chart: &[i32], s: usize, next: Next) -> bool
    ensures { result ≡ defaulting (kind_in (chart_of chart.now) s) (way_by next) }
{
    is_o(kind_of(chart, s)) && matches!(next, Next::Defaults)
}

// What a slot holds: an empty slot's marker is no state.
pub fn slot_of(slots: &[i32; STATES], s: usize) -> Option<usize>
    requires { (s < states) × (length slots.now ≡ states) }
    ensures { result ≡ slot_in slots.now s }
{
    place_of(slots[s])
}

// "And so on down by the slots".
pub fn stored(slots: &[i32; STATES], s: usize) -> Next
    requires { (s < states) × (length slots.now ≡ states) }
    ensures { way_by result ≡ stored_way slots.now s }
{
    let place = slot_of(slots, s);
    match place {
        Some(d) => Next::OnTo(d),
        None => Next::Stops,
    }
}

// "The path from below the scope to the target .. below that, defaults".
fn next_to(chart: &[i32], t: usize, s: usize) -> Next
    requires { Ruled chart.now }
    ensures { way_by result ≡ towards (chart_of chart.now) t s }
{
    let place = path_child(chart, s, t);
    match place {
        Some(d) => Next::OnTo(d),
        None => Next::Defaults,
    }
}

// The way to a goal; at the owner of a history it stops.
pub fn next_of(chart: &[i32], goal: Goal, s: usize) -> Next
    requires { Ruled chart.now }
    ensures { way_by result ≡ goal_way (chart_of chart.now) goal s }
{
    match goal {
        Goal::Target(t) => next_to(chart, t, s),
        Goal::Owner(b) => {
            if s == b {
                return Next::Stops;
            }
            next_to(chart, b, s)
        }
    }
}

// The way of a course at s.
pub fn next_by(chart: &[i32], slots: &[i32; STATES], course: Course, s: usize) -> Next
    requires { Ruled chart.now × (s < states) × (length slots.now ≡ states) }
    ensures { way_by result ≡ course_way (chart_of chart.now) slots.now course s }
{
    match course {
        Course::Defaults => Next::Defaults,
        Course::Slots => stored(slots, s),
        Course::Towards(goal) => next_of(chart, goal, s),
    }
}

// Whether a descent goes by the slots: it meets 14 at an o state whose slot is empty.
pub fn restores(course: Course) -> bool
    ensures { result ≡ restoring course }
{
    matches!(course, Course::Slots)
}

// How a descent to a goal goes on below s, which it just entered: at the owner of a history "if its slot is filled .. down by the
// slots .. If empty, the default is taken", else as before.
fn onward_to(slots: &[i32; STATES], goal: Goal, s: usize) -> Course
    requires { (s < states) × (length slots.now ≡ states) }
    ensures { result ≡ onward_goal slots.now goal s }
{
    let Goal::Owner(b) = goal else {
        return Course::Towards(goal);
    };
    if s != b {
        return Course::Towards(goal);
    }
    let None = slot_of(slots, s) else {
        return Course::Slots;
    };
    Course::Defaults
}

// How any descent goes on below s, which it just entered.
pub fn onward(slots: &[i32; STATES], course: Course, s: usize) -> Course
    requires { (s < states) × (length slots.now ≡ states) }
    ensures { result ≡ onward_from slots.now course s }
{
    match course {
        Course::Defaults => Course::Defaults,
        Course::Slots => Course::Slots,
        Course::Towards(goal) => onward_to(slots, goal, s),
    }
}
