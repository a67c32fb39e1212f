// The effects of a reaction on a widget's state (01, "One reaction"), which is lent and changed where it stands: the trace, the acts,
// leaving and entering one state. The chart's runner and the plan machine share these functions, and each is promised in one form:
// what it leaves behind is what the definition's step gives. A step gives the trace's next free place, or the refusal met.
#![tactic(auto)]

pub mod fits;

ghost use Rattle.std.specs.Prelude.{◌≡◌, ◌++◌, ◌-◌, ◌≤◌, ◌<◌, length, take, replicate, pos};
ghost use Rattle.sizes.specs.Sizes.{STATES as states, VARIABLES as variables};
ghost use Rattle.numbers.specs.Reference.{NOWHERE};
ghost use Rattle.meaning.specs.declared.State.{State as Widget};
ghost use Rattle.meaning.specs.declared.Entry.TheVariants.{Taken as taken, Told as told};
ghost use Rattle.meaning.specs.Widget.{emit as emits, numbers};
ghost use Rattle.meaning.specs.Effects.{assign as assigns, act_on, mark_left, mark_entered};
ghost use Rattle.widget.specs.View.{Noted, Did};
ghost use Rattle.widget.specs.Acts.{stored, adding, sending, Small, Named, Below};

use meaning::answers::Refusal;
use meaning::chart::{Act, VarRow};
use meaning::{Entry, State};
use numbers::{add_held, hold, number};
use queue::Item;
use sizes::{ENTRY, QUEUE};

// 01, "Trace": an entry's three numbers; "an unused third is 0".
fn numbers_of(entry: Entry) -> [i32; ENTRY]
    requires { Small entry }
    ensures { result ≡ numbers entry }
{
    match entry {
        Entry::Taken(t) => [1, number(t), 0],
        Entry::Left(s) => [2, number(s), 0],
        Entry::Entered(s) => [3, number(s), 0],
        Entry::Changed(v, x) => [4, number(v), x],
        Entry::Sent(e, x) => [5, number(e), x],
        Entry::Told(x) => [6, x, 0],
    }
}

// 01, "Trace": three numbers an entry, whatever they are; 11, no room for the next trace entry.
pub fn emit(three: [i32; ENTRY], trace: &mut [i32], at: usize) -> Result<usize, Refusal>
    requires { at ≤ length trace.old }
    ensures { Noted three trace.old at result trace.new }
{
    if trace.len() - at < ENTRY {
        return Err(Refusal::NoRoom);
    }
    let [what, first, second] = three;
    trace[at] = what;
    trace[at + 1] = first;
    trace[at + 2] = second;
    Ok(at + ENTRY)
}

// The numbers of an entry into the trace.
fn write(entry: Entry, trace: &mut [i32], at: usize) -> Result<usize, Refusal>
    requires { Small entry × (at ≤ length trace.old) }
    ensures { Noted (numbers entry) trace.old at result trace.new }
{
    emit(numbers_of(entry), trace, at)
}

// 01, "Trace": the lent slice past the last entry is 0.
pub fn clear_from(trace: &mut [i32], at: usize)
    requires { at ≤ length trace.old }
    ensures { trace.new ≡ take at trace.old ++ replicate (length trace.old - at) (pos 0) }
{
    trace[at..].fill(0);
}

// 01, "Trace": 1, transition taken. No state is asked for: it may be any.
pub fn mark_taken(t: usize, trace: &mut [i32], at: usize) -> Result<usize, Refusal>
    requires { (t < NOWHERE) × (at ≤ length trace.old) }
    ensures { (u : Widget) → Did (emits (taken t)) u trace.old at result u trace.new }
{
    write(Entry::Taken(t), trace, at)
}

// 01, "Trace": 6, number told.
pub fn tell(x: i32, trace: &mut [i32], at: usize) -> Result<usize, Refusal>
    requires { at ≤ length trace.old }
    ensures { (u : Widget) → Did (emits (told x)) u trace.old at result u trace.new }
{
    write(Entry::Told(x), trace, at)
}

// 01, "Trace": 4, variable and its new value, written before the effect goes on.
pub fn store(
    v: usize,
    value: i32,
    widget: &mut State,
    trace: &mut [i32],
    at: usize,
) -> Result<usize, Refusal>
    requires { (v < variables) × (at ≤ length trace.old) }
    ensures { Did (stored v value) widget.old trace.old at result widget.new trace.new }
{
    let next = write(Entry::Changed(v, value), trace, at)?;
    widget.vars[v] = value;
    Ok(next)
}

// 01, "Trace": 5, event sent and its argument; at a send 11 before 9. Appended where the queue stands, which is not copied for it.
pub fn send(
    e: usize,
    x: i32,
    widget: &mut State,
    trace: &mut [i32],
    at: usize,
) -> Result<usize, Refusal>
    requires { (e < NOWHERE) × (at ≤ length trace.old) }
    ensures { Did (sending e x) widget.old trace.old at result widget.new trace.new }
{
    let next = write(Entry::Sent(e, x), trace, at)?;
    let last = widget.queue.len;
    if QUEUE <= last {
        return Err(Refusal::QueueFull);
    }
    widget.queue.items[last] = Item {
        event: number(e),
        arg: x,
    };
    widget.queue.len = last + 1;
    Ok(next)
}

// 01, acts s and k: the variable takes the value, held at the nearer end of its range.
pub fn assign(
    row: VarRow,
    v: usize,
    x: i32,
    widget: &mut State,
    trace: &mut [i32],
    at: usize,
) -> Result<usize, Refusal>
    requires { (v < variables) × (at ≤ length trace.old) }
    ensures { Did (assigns row v x) widget.old trace.old at result widget.new trace.new }
{
    let value = hold(i64::from(x), row.low, row.high);
    store(v, value, widget, trace, at)
}

// 01, act a: the same with the sum of its value and x.
pub fn add(
    row: VarRow,
    v: usize,
    x: i32,
    widget: &mut State,
    trace: &mut [i32],
    at: usize,
) -> Result<usize, Refusal>
    requires { (v < variables) × (at ≤ length trace.old) }
    ensures { Did (adding row v x) widget.old trace.old at result widget.new trace.new }
{
    let value = add_held(widget.vars[v], x, row.low, row.high);
    store(v, value, widget, trace, at)
}

// 01, acts s, a, k, q, o, with the row of the act's variable and the event's argument.
pub fn perform(
    row: VarRow,
    arg: i32,
    act: Act,
    widget: &mut State,
    trace: &mut [i32],
    at: usize,
) -> Result<usize, Refusal>
    requires { Named act × (at ≤ length trace.old) }
    ensures { Did (act_on row arg act) widget.old trace.old at result widget.new trace.new }
{
    match act {
        Act::SetTo(v, x) => assign(row, v, x, widget, trace, at),
        Act::AddTo(v, x) => add(row, v, x, widget, trace, at),
        Act::TakeTo(v) => assign(row, v, arg, widget, trace, at),
        Act::Send(e, x) => send(e, x, widget, trace, at),
        Act::Tell(x) => tell(x, trace, at),
    }
}

// 01, "Trace": 2, state left; leaving a state stores it in its o parent's slot.
pub fn mark_left(
    p: Option<usize>,
    s: usize,
    widget: &mut State,
    trace: &mut [i32],
    at: usize,
) -> Result<usize, Refusal>
    requires { Below states p × (s < states) × (at ≤ length trace.old) }
    ensures { Did (mark_left p s) widget.old trace.old at result widget.new trace.new }
{
    let next = write(Entry::Left(s), trace, at)?;
    widget.active[s] = false;
    if let Some(parent) = p {
        widget.slots[parent] = number(s);
    }
    Ok(next)
}

// 01, "Trace": 3, state entered.
pub fn mark_entered(
    s: usize,
    widget: &mut State,
    trace: &mut [i32],
    at: usize,
) -> Result<usize, Refusal>
    requires { (s < states) × (at ≤ length trace.old) }
    ensures { Did (mark_entered s) widget.old trace.old at result widget.new trace.new }
{
    let next = write(Entry::Entered(s), trace, at)?;
    widget.active[s] = true;
    Ok(next)
}
