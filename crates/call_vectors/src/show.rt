// What is printed of a call and of the state after it: `R` answer, place, count of entries; the entries, one a line; `S` the started mark,
// `M` the active states, `H` owner and child of each filled slot, `V` the chart's variables, `Q` event and argument of what waits.
use meaning::{Called, State};
use sizes::{QUEUE, STATES, VARIABLES};
use std::io;

pub fn print(rt: &impl Print, word: &[u8]) -> io::Result<()> {
    rt.write_all(word)
}

fn print_number(rt: &impl Print, n: usize) -> io::Result<()> {
    print!(rt; "{n}")
}

// A number with its sign.
fn print_signed(rt: &impl Print, v: i32) -> io::Result<()> {
    let mut word = [0u8; 16];
    let n = console::put_numeral(&mut word, 0, v);
    let most = crate::parse::within(n, &word);
    print(rt, &word[..most])
}

// A space and a number.
fn print_next(rt: &impl Print, v: i32) -> io::Result<()> {
    print(rt, b" ")?;
    print_signed(rt, v)
}

// R, answer, place, count of entries.
pub fn answer(rt: &impl Print, called: Called) -> io::Result<()> {
    let answer = called.answer;
    print(rt, b"R ")?;
    print_number(rt, answer.number)?;
    print(rt, b" ")?;
    print_number(rt, answer.place)?;
    print(rt, b" ")?;
    print_number(rt, called.entries)?;
    print(rt, b"\n")
}

// The entries, one a line; where the trace holds fewer, those.
pub fn entries(rt: &impl Print, trace: &[i32], n: usize) -> io::Result<()> {
    let mut i: usize = 0;
    let mut left = n;
    while 0 < left {
        if trace.len() - i < 3 {
            break;
        }
        print_signed(rt, trace[i])?;
        print_next(rt, trace[i + 1])?;
        print_next(rt, trace[i + 2])?;
        print(rt, b"\n")?;
        i += 3;
        left -= 1;
    }
    Ok(())
}

// An owner or event and what belongs to it.
fn print_pair(rt: &impl Print, first: i32, second: i32) -> io::Result<()> {
    print_next(rt, first)?;
    print(rt, b":")?;
    print_signed(rt, second)
}

fn print_active(rt: &impl Print, state: State) -> io::Result<()> {
    print(rt, b"\nM")?;
    let active = state.active;
    let mut k: usize = 0;
    while k < STATES {
        let s = k;
        k += 1;
        if !active[s] {
            continue;
        }
        print_next(rt, s as i32)?;
    }
    Ok(())
}

fn print_slots(rt: &impl Print, state: State) -> io::Result<()> {
    print(rt, b"\nH")?;
    let slots = state.slots;
    let mut k: usize = 0;
    while k < STATES {
        let s = k;
        k += 1;
        let child = slots[s];
        if child == -1 {
            continue;
        }
        print_pair(rt, s as i32, child)?;
    }
    Ok(())
}

// How many variables the widget has: the second number of its plan (docs/PLAN.md).
fn variables(plan: &[i32]) -> usize {
    if plan.len() < 2 {
        return 0;
    }
    numbers::reference(plan[1])
}

fn print_variables(rt: &impl Print, plan: &[i32], state: State) -> io::Result<()> {
    print(rt, b"\nV")?;
    let vars = state.vars;
    let n = variables(plan);
    let mut k: usize = 0;
    while k < VARIABLES {
        if n <= k {
            break;
        }
        print_next(rt, vars[k])?;
        k += 1;
    }
    Ok(())
}

fn print_queue(rt: &impl Print, state: State) -> io::Result<()> {
    print(rt, b"\nQ")?;
    let queue = state.queue;
    let n = queue.len;
    let mut k: usize = 0;
    while k < QUEUE {
        if n <= k {
            break;
        }
        let item = queue.items[k];
        print_pair(rt, item.event, item.arg)?;
        k += 1;
    }
    Ok(())
}

// The state, in five lines.
pub fn state(rt: &impl Print, plan: &[i32], state: State) -> io::Result<()> {
    if state.started {
        print(rt, b"S 1")?;
    } else {
        print(rt, b"S 0")?;
    }
    print_active(rt, state)?;
    print_slots(rt, state)?;
    print_variables(rt, plan, state)?;
    print_queue(rt, state)?;
    print(rt, b"\n")
}
