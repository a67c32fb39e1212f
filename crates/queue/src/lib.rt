// The event queue of document 01 as a struct by value: "Post appends an event with an argument; discard
// removes the front one". Append and remove are methods that take the queue and hand it back; each
// equals a definition of specs/Queue on every queue, legal or not. A place not in use holds 0 with 0. A host keeps the queue as
// numbers: lent.
#![tactic(auto)]

pub mod lent;

ghost use Rattle.std.specs.Prelude.{◌≡◌};
ghost use Rattle.queue.specs.Queue.{appended, appended_by, removed, removed_by, empty_queue, no_item};

use sizes::QUEUE;

// The last place.
const LAST: usize = QUEUE - 1;

// A waiting event with its argument.
#[derive(Clone, Copy)]
pub struct Item {
    pub event: i32,
    pub arg: i32,
}

// What a place not in use holds.
pub const FREE: Item = Item { event: 0, arg: 0 };

#[derive(Clone, Copy)]
pub struct Queue {
    pub len: usize,
    pub items: [Item; QUEUE],
}

impl Queue {
    // 01, start: an empty queue.
    pub fn empty() -> Queue
        ensures { result ≡ empty_queue }
    {
        Queue {
            len: 0,
            items: [FREE; QUEUE],
        }
    }

    // 01: post appends an event with an argument. A queue that is full is handed back as it was.
    pub fn append(self, event: i32, arg: i32) -> Result<Queue, Queue>
        ensures { appended_by result ≡ appended self event arg }
    {
        let at = self.len;
        if QUEUE <= at {
            return Err(self);
        }
        let mut next = self;
        next.items[at] = Item { event, arg };
        next.len = at + 1;
        Ok(next)
    }

    // 01: discard removes the front one; each place takes what the next one held, and the last is free. A queue without a front is
    // handed back as it was.
    pub fn remove(self) -> (Option<Item>, Queue)
        ensures { removed_by result.0 result.1 ≡ removed self }
    {
        let n = self.len;
        if n == 0 || QUEUE < n {
            return (None, self);
        }
        let mut rest = [FREE; QUEUE];
        for i in 0..LAST {
            rest[i] = self.items[i + 1];
        }
        let next = Queue {
            len: n - 1,
            items: rest,
        };
        (Some(self.items[0]), next)
    }
}
