// The queue as a host keeps it, in numbers: a length, then event and argument of each place. All such numbers say some queue
// (specs/Numbers), and `lend` and `held` are the two ways round. That there are QUEUE_NUMBERS of them is said here, since a promise sees
// a lent array as a list.
ghost use Rattle.std.specs.Prelude.{◌≡◌, pos, length};
ghost use Rattle.queue.specs.Numbers.{QUEUE_NUMBERS as all, queue_by, numbers_of, told_length};

use super::{FREE, Item, Queue};
use numbers::{number, reference};
use sizes::QUEUE;

// One number for the length, two for each place.
pub const QUEUE_NUMBERS: usize = 1 + 2 * QUEUE;

// A length as a number; all that are over the places are alike.
fn told_length(len: usize) -> i32
    ensures { result ≡ pos (told_length len) }
{
    if QUEUE < len {
        return number(QUEUE + 1);
    }
    number(len)
}

// The numbers of a queue.
pub fn lend(queue: Queue) -> [i32; QUEUE_NUMBERS]
    ensures { result ≡ numbers_of queue }
{
    let mut numbers = [0; QUEUE_NUMBERS];
    numbers[0] = told_length(queue.len);
    for i in 0..QUEUE {
        let item = queue.items[i];
        let at = 2 * i + 1;
        numbers[at] = item.event;
        numbers[at + 1] = item.arg;
    }
    numbers
}

// The queue that the numbers say.
pub fn held(numbers: &[i32; QUEUE_NUMBERS]) -> Queue
    requires { length numbers.now ≡ all }
    ensures { result ≡ queue_by numbers.now }
{
    let mut items = [FREE; QUEUE];
    for i in 0..QUEUE {
        let at = 2 * i + 1;
        items[i] = Item {
            event: numbers[at],
            arg: numbers[at + 1],
        };
    }
    Queue {
        len: reference(numbers[0]),
        items,
    }
}
