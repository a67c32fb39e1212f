// A widget's state as lent numbers at fixed places (docs/HOST.md): the started mark, an active mark for each state, a slot for each state,
// the variables, the queue's length, and event and argument of each of its places. Numbers that state no widget are loaded as one that
// every call refuses, so that nothing is asked of what is lent.
#![tactic(auto)]

ghost use Rattle.std.specs.Prelude.{◌≡◌, map, ◌+◌, ◌≤◌, length, take, drop, replicate, pos, ◌∷◌};
ghost use Rattle.std.proofs.Math.Seq.{paste};
ghost use Rattle.sizes.specs.Sizes.{STATES as states, STATE_NUMBERS as all};
ghost use Rattle.queue.specs.Numbers.{queue_by};
ghost use Rattle.meaning.specs.Lists.{every};
ghost use Rattle.promises.specs.Saved.{MARKS as marks, mark, small, part, is_mark, is_set};
ghost use Rattle.promises.specs.Saved.{LENGTH_AT as length_at, states_widget, no_widget, widget_of, stored, moved_on};
ghost use Rattle.queue.specs.Numbers.{QUEUE_NUMBERS as queue_numbers, item_numbers};

use meaning::State;
use queue::Queue;
use queue::lent::{QUEUE_NUMBERS, held, lend};
use sizes::{STATE_NUMBERS, STATES, VARIABLES};

// The started mark and the active ones.
const MARKS: usize = 1 + STATES;

const SLOTS_AT: usize = MARKS;

const VARS_AT: usize = SLOTS_AT + STATES;

const LENGTH_AT: usize = VARS_AT + VARIABLES;

// ---- small things

// A count as a number that a host can read: itself, or -1 where it has no i32.
pub fn small(n: usize) -> i32
    ensures { result ≡ small n }
{
    i32::try_from(n).unwrap_or(-1)
}

fn mark(b: bool) -> i32
    ensures { result ≡ mark b }
{
    i32::from(b)
}

// Sets all of the numbers to 0.
pub fn clear(lent: &mut [i32])
    ensures { lent.new ≡ replicate (length lent.old) (pos 0) }
{
    lent.fill(0);
}

// Copies some numbers from a place of one slice to a place of another, one by one: `copy_from_slice` compares the addresses of the two, and
// web/build takes no module in which a pointer becomes a number.
fn copy(from: &[i32], at: usize, to: &mut [i32], place: usize, count: usize)
    requires { (at + count ≤ length from.now) × (place + count ≤ length to.old) }
    ensures { to.new ≡ paste to.old place (drop at from.now) count }
{
    for i in 0..count {
        to[place + i] = from[at + i];
    }
}

// ---- numbers to a state

// Whether the started mark and every active mark is 0 or 1. Each is looked at, with no way out before the last: so the compiler tests many
// at once.
fn marked(numbers: &[i32]) -> bool
    requires { marks ≤ length numbers.now }
    ensures { result ≡ every is_mark (take marks numbers.now) }
{
    let mut fit = true;
    for n in &numbers[..MARKS] {
        fit &= numbers::between(0, *n, 1);
    }
    fit
}

// Whether the numbers state a widget. A queue longer than its places is stated: the calls refuse it themselves.
fn states_widget(numbers: &[i32]) -> bool
    ensures { result ≡ states_widget numbers.now }
{
    numbers.len() >= STATE_NUMBERS && numbers[LENGTH_AT] >= 0 && marked(numbers)
}

// A widget with no state active, started or not: the calls refuse it, with 6 or 7.
fn no_widget(started: bool) -> State
    ensures { result ≡ no_widget started }
{
    State {
        started,
        active: [false; STATES],
        slots: [-1; STATES],
        vars: [0; VARIABLES],
        queue: Queue::empty(),
    }
}

fn load_active(numbers: &[i32]) -> [bool; STATES]
    requires { marks ≤ length numbers.now }
    ensures { result ≡ map is_set (part 1 states numbers.now) }
{
    let mut active = [false; STATES];
    for (i, on) in active.iter_mut().enumerate() {
        *on = numbers[1 + i] == 1;
    }
    active
}

fn load_queue(numbers: &[i32]) -> Queue
    requires { all ≤ length numbers.now }
    ensures { result ≡ queue_by (part length_at queue_numbers numbers.now) }
{
    let mut waiting = [0; QUEUE_NUMBERS];
    copy(numbers, LENGTH_AT, &mut waiting, 0, QUEUE_NUMBERS);
    held(&waiting)
}

// The widget that the numbers state.
pub fn load(numbers: &[i32]) -> State
    ensures { result ≡ widget_of numbers.now }
{
    if !states_widget(numbers) {
        return no_widget(!numbers.is_empty() && numbers[0] != 0);
    }
    let mut slots = [0; STATES];
    copy(numbers, SLOTS_AT, &mut slots, 0, STATES);
    let mut vars = [0; VARIABLES];
    copy(numbers, VARS_AT, &mut vars, 0, VARIABLES);
    State {
        started: numbers[0] == 1,
        active: load_active(numbers),
        slots,
        vars,
        queue: load_queue(numbers),
    }
}

// ---- a state to its numbers

fn store_active(active: [bool; STATES], numbers: &mut [i32])
    requires { marks ≤ length numbers.old }
    ensures { numbers.new ≡ paste numbers.old 1 (map mark active) states }
{
    for (i, on) in active.iter().enumerate() {
        numbers[1 + i] = mark(*on);
    }
}

fn store_queue(queue: Queue, numbers: &mut [i32])
    requires { all ≤ length numbers.old }
    ensures { numbers.new
        ≡ paste numbers.old length_at (small queue.len ∷ item_numbers queue.items) queue_numbers }
{
    let len = small(queue.len);
    let waiting = lend(queue);
    copy(&waiting, 0, numbers, LENGTH_AT, QUEUE_NUMBERS);
    numbers[LENGTH_AT] = len;
}

// Writes the numbers that state the widget; what is lent past them stays, and so do numbers too few for a widget.
pub fn store(state: State, numbers: &mut [i32])
    ensures { numbers.new ≡ stored state numbers.old }
{
    if numbers.len() < STATE_NUMBERS {
        return;
    }
    let State {
        started,
        active,
        slots,
        vars,
        queue,
    } = state;
    numbers[0] = mark(started);
    store_active(active, numbers);
    copy(&slots, 0, numbers, SLOTS_AT, STATES);
    copy(&vars, 0, numbers, VARS_AT, VARIABLES);
    store_queue(queue, numbers);
}

// Writes the numbers of the state that calls stopped at; numbers that stated no widget stay, since no call on them was done.
pub fn move_on(state: State, numbers: &mut [i32])
    ensures { numbers.new ≡ moved_on state numbers.old }
{
    if states_widget(numbers) {
        store(state, numbers);
    }
}
