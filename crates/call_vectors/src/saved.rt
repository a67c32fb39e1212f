// A widget's state from its numbers, one a line: started, a mark and a slot for each state, the variables, the queue's length and its
// places of event and argument.
use crate::parse::number_from;
use meaning::State;
use queue::{Item, Queue};
use sizes::{QUEUE, STATES, VARIABLES};

// What was read, and the place behind it.
#[derive(Drop)]
struct Marks {
    active: [bool; STATES],
    to: usize,
}

#[derive(Drop)]
struct Slots {
    slots: [i32; STATES],
    to: usize,
}

#[derive(Drop)]
struct Values {
    vars: [i32; VARIABLES],
    to: usize,
}

fn marks_from(text: &[u8], from: usize) -> Marks {
    let mut active = [false; STATES];
    let mut at = from;
    let mut k: usize = 0;
    while k < STATES {
        let n = number_from(text, at);
        active[k] = n.value == 1;
        at = n.to;
        k += 1;
    }
    Marks {
        active: active,
        to: at,
    }
}

fn slots_from(text: &[u8], from: usize) -> Slots {
    let mut slots = [-1; STATES];
    let mut at = from;
    let mut k: usize = 0;
    while k < STATES {
        let n = number_from(text, at);
        let value = n.value;
        slots[k] = value;
        at = n.to;
        k += 1;
    }
    Slots {
        slots: slots,
        to: at,
    }
}

fn values_from(text: &[u8], from: usize) -> Values {
    let mut vars = [0; VARIABLES];
    let mut at = from;
    let mut k: usize = 0;
    while k < VARIABLES {
        let n = number_from(text, at);
        let value = n.value;
        vars[k] = value;
        at = n.to;
        k += 1;
    }
    Values { vars: vars, to: at }
}

fn queue_from(text: &[u8], from: usize) -> Queue {
    let length = number_from(text, from);
    let none = Item { event: 0, arg: 0 };
    let mut items = [none; QUEUE];
    let mut at = length.to;
    let mut k: usize = 0;
    while k < QUEUE {
        let event = number_from(text, at);
        let argument = number_from(text, event.to);
        items[k] = Item {
            event: event.value,
            arg: argument.value,
        };
        at = argument.to;
        k += 1;
    }
    Queue {
        len: numbers::reference(length.value),
        items: items,
    }
}

pub fn state_of(text: &[u8]) -> State {
    let started = number_from(text, 0);
    let marks = marks_from(text, started.to);
    let slots = slots_from(text, marks.to);
    let values = values_from(text, slots.to);
    let active = marks.active;
    let held = slots.slots;
    let vars = values.vars;
    State {
        started: started.value == 1,
        active: active,
        slots: held,
        vars: vars,
        queue: queue_from(text, values.to),
    }
}
