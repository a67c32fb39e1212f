// The calls over a plan, as those over a chart.
use super::parse::{byte_at, number_from};
use super::{P, R, S, lent};
use engine::{Called, State, planned};

// A start or a run, on exactly the numbers that the call lends.
fn traced(plan: &[i32], state: State, calls: &[u8], at: usize, trace: &mut [i32]) -> Called {
    let n = lent(calls, at, trace);
    if byte_at(calls, at) == S {
        return planned::start(plan, state, &mut trace[..n]);
    }
    planned::run(plan, state, &mut trace[..n])
}

// A post or a discard.
fn untraced(plan: &[i32], state: State, calls: &[u8], at: usize) -> Called {
    if byte_at(calls, at) == P {
        let event = number_from(calls, at);
        let argument = number_from(calls, event.to);
        return planned::post(plan, state, event.value, argument.value);
    }
    planned::discard(plan, state)
}

// The call at a place, by its first letter, and what it gives.
pub fn call(plan: &[i32], state: State, calls: &[u8], at: usize, trace: &mut [i32]) -> Called {
    let b = byte_at(calls, at);
    if b == S {
        return traced(plan, state, calls, at, trace);
    }
    if b == R {
        return traced(plan, state, calls, at, trace);
    }
    untraced(plan, state, calls, at)
}
