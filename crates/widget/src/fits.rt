// The parts of the test for answer 6 that need no chart (01, "Answer numbers"): the queue, and marks of states that there
// are not. The chart's calls and the plan machine both make them. Each equals its definition on every input.
ghost use Rattle.std.specs.Prelude.{◌≡◌, not, ◌≤◌, drop};
ghost use Rattle.sizes.specs.Sizes.{QUEUE as places};
ghost use Rattle.queue.specs.Queue.{waiting};
ghost use Rattle.meaning.specs.Lists.{every};
ghost use Rattle.meaning.specs.Foreign.{event_fits, item_fits, is_none, queue_fits};

use numbers::{in_range, place_of};
use queue::{Item, Queue};
use sizes::{QUEUE, STATES};

// An event 1 to the count, and an argument in range; else 10 at a post, 6 in a queue.
pub fn event_fits(events: usize, event: i32, arg: i32) -> bool
    ensures { result ≡ event_fits events event arg }
{
    let Some(e) = place_of(event) else {
        return false;
    };
    e != 0 && (e <= events && in_range(arg))
}

// A place not in use holds 0 with 0.
fn is_free(item: Item) -> bool
    ensures { result ≡ is_none item }
{
    (item.event == 0) & (item.arg == 0)
}

fn waiting_fit(events: usize, queue: Queue) -> bool
    requires { queue.len ≤ places }
    ensures { result ≡ every (item_fits events) (waiting queue) }
{
    let n = queue.len;
    for i in 0..n {
        let item = queue.items[i];
        if !event_fits(events, item.event, item.arg) {
            return false;
        }
    }
    true
}

fn rest_free(queue: Queue) -> bool
    ensures { result ≡ every is_none (drop queue.len queue.items) }
{
    let mut fit = true;
    for i in queue.len..QUEUE {
        fit &= is_free(queue.items[i]);
    }
    fit
}

// 01, answer 6: queue over 16 or with a wrong event or argument, or a free place that holds something.
pub fn queue_fits(events: usize, queue: Queue) -> bool
    ensures { result ≡ queue_fits events queue }
{
    queue.len <= QUEUE && (waiting_fit(events, queue) && rest_free(queue))
}

// 01, answer 6: a state that there is not is not active. Every mark is looked at, with no way out before the last: so the compiler tests
// many at once.
pub fn marks_fit(states: usize, active: [bool; STATES]) -> bool
    ensures { result ≡ every not (drop states active) }
{
    let mut fit = true;
    for i in states..STATES {
        fit &= !active[i];
    }
    fit
}
