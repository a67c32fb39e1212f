// Lists of calls run and compared (01, "One reaction", through the engine's public functions): the arguments name cases, each with files of
// data/. A case calls_N has a chart and calls, made one after the other on a widget not yet started; a case saved_N has a chart, a
// widget's state in numbers and calls, each made on that very state. For each the program prints its name; for each call `R`, answer,
// place and count of entries; for calls_N also the entries and the state after it (module show). Then the same over the plan that the chart
// compiles to. A case whose chart is refused prints `refused`. The file `stdout` has what must be printed: for each case its name and its
// expected lines; then its name with ` by its plan` and the lines again, those of a case saved_N that begin with P, with R for P.
#![tactic(auto)]

mod by_plan;
mod parse;
mod saved;
mod show;

ghost use Rattle.std.specs.Prelude.{◌≡◌, ◌≤◌, length, IfOk, OnErr};
ghost use Rattle.std.specs.Counts.{IsPrefixLen};

use engine::plans::compile;
use engine::{Called, State, VALUE};
use files::{ARGUMENT, LENT, argument, file_bytes};
use parse::{byte_at, line_after, number_from};
use show::print;
use std::env::Env;
use std::io;
use std::rt::Files;

// The most numbers that a call of the cases lends for its trace.
const ROOM: usize = 3000;

// Room for the plan of each chart of the cases.
const PLAN: usize = 100000;

// The first letters of the words: start, post, run, discard; and of the cases saved_N.
pub const S: u8 = 115;

pub const P: u8 = 112;

pub const R: u8 = 114;

// A case's file, by the case's name and how the file's name ends: its length, 0 where it cannot be opened.
fn load(rt: &impl Files, name: &[u8], ending: &[u8], buffer: &mut [u8]) -> io::Result<usize>
    ensures ok { IfOk result (λ n. IsPrefixLen n buffer.new) }
    ensures err { OnErr result (length buffer.new ≡ length buffer.old) }
{
    let mut path = [0u8; ARGUMENT];
    let a = parse::joined(&mut path, 0, name);
    let b = parse::joined(&mut path, a, ending);
    let n = parse::within(b, &path);
    let found = file_bytes(rt, &path[..n], buffer)?;
    Ok(found.unwrap_or(0))
}

// How many numbers a call lends, of those that there are.
pub fn lent(calls: &[u8], at: usize, trace: &[i32]) -> usize
    ensures { result ≤ length trace.now }
{
    let n = number_from(calls, at);
    let most = numbers::reference(n.value);
    if most < trace.len() {
        most
    } else {
        trace.len()
    }
}

// A start or a run, on exactly the numbers that the call lends.
fn traced(chart: &[i32], state: State, calls: &[u8], at: usize, trace: &mut [i32]) -> Called {
    let n = lent(calls, at, trace);
    if byte_at(calls, at) == S {
        return engine::start(chart, state, &mut trace[..n]);
    }
    engine::run(chart, state, &mut trace[..n])
}

// A post or a discard.
fn untraced(chart: &[i32], state: State, calls: &[u8], at: usize) -> Called {
    if byte_at(calls, at) == P {
        let event = number_from(calls, at);
        let argument = number_from(calls, event.to);
        return engine::post(chart, state, event.value, argument.value);
    }
    engine::discard(chart, state)
}

// The call at a place, by its first letter, and what it gives; over the plan, or over the chart.
fn call(
    chart: &[i32],
    plan: &[i32],
    planned: bool,
    state: State,
    calls: &[u8],
    at: usize,
    trace: &mut [i32],
) -> Called {
    if planned {
        return by_plan::call(plan, state, calls, at, trace);
    }
    let b = byte_at(calls, at);
    if b == S {
        return traced(chart, state, calls, at, trace);
    }
    if b == R {
        return traced(chart, state, calls, at, trace);
    }
    untraced(chart, state, calls, at)
}

// Calls one after the other, the first on a widget not yet started.
fn one_after_another(
    rt: &impl Print,
    chart: &[i32],
    plan: &[i32],
    planned: bool,
    calls: &[u8],
) -> io::Result<()> {
    let mut state = engine::unstarted();
    let mut trace = [0i32; ROOM];
    let mut at = 0;
    while at < calls.len() {
        let called = call(chart, plan, planned, state, calls, at, &mut trace);
        state = called.state;
        show::answer(rt, called)?;
        show::entries(rt, &trace, called.entries)?;
        show::state(rt, plan, state)?;
        at = line_after(calls, at);
    }
    Ok(())
}

// Calls, each on the same state.
fn each_on(
    rt: &impl Print,
    chart: &[i32],
    plan: &[i32],
    planned: bool,
    state: State,
    calls: &[u8],
) -> io::Result<()> {
    let mut trace = [0i32; ROOM];
    let mut at = 0;
    while at < calls.len() {
        let called = call(chart, plan, planned, state, calls, at, &mut trace);
        show::answer(rt, called)?;
        at = line_after(calls, at);
    }
    Ok(())
}

// A case's calls, over its chart or over its plan.
fn run_calls(
    rt: &(impl Files + Print),
    name: &[u8],
    chart: &[i32],
    plan: &[i32],
    planned: bool,
) -> io::Result<()> {
    let mut calls = [0u8; LENT];
    let n = load(rt, name, b"_calls.txt", &mut calls)?;
    if byte_at(name, 0) == S {
        let mut numbers = [0u8; LENT];
        let m = load(rt, name, b"_state.txt", &mut numbers)?;
        let state = saved::state_of(&numbers[..m]);
        return each_on(rt, chart, plan, planned, state, &calls[..n]);
    }
    one_after_another(rt, chart, plan, planned, &calls[..n])
}

// One case, by its name.
fn run(rt: &(impl Files + Print), name: &[u8]) -> io::Result<()> {
    print(rt, name)?;
    print(rt, b"\n")?;
    let mut text = [0u8; LENT];
    let n = load(rt, name, b"_chart.txt", &mut text)?;
    let mut chart = [0i32; VALUE];
    let answer = engine::read(&text[..n], &mut chart);
    if answer.number != 0 {
        return print(rt, b"refused\n");
    }
    let mut plan = [0i32; PLAN];
    compile(&chart, &mut plan);
    run_calls(rt, name, &chart, &plan, false)?;
    print(rt, name)?;
    print(rt, b" by its plan\n")?;
    run_calls(rt, name, &chart, &plan, true)
}

// The case that an argument names; whether there is such an argument.
fn run_argument(rt: &(impl Env + Files + Print), i: usize) -> io::Result<bool> {
    let mut name = [0u8; ARGUMENT];
    let Some(n) = argument(rt, i, &mut name) else {
        return Ok(false);
    };
    run(rt, &name[..n])?;
    Ok(true)
}

fn main(rt: HostRuntime) -> io::Result<()> {
    for i in 1..usize::MAX {
        if !run_argument(&rt, i)? {
            break;
        }
    }
    Ok(())
}
