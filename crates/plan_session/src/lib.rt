// A session over a compiled plan, for two programs: reads chart.txt, a missing one as empty, compiles it, examines the plan once,
// starts a widget, and replays the events of standard input, lines of event, tab, argument, one a call, so that the trace of
// every run is seen. `trace_plan` shows what the trace program shows (01, the end of "Checked by example"): a report of the start
// and of each line, whatever the answer. `replay` stops at the first refusal, where a line of another form is answer 1, and
// writes one line at the end: how many events were done, how many transitions their runs took, and the answer that stopped it, if
// any; and every 100,000 events a line of progress on standard error. A read or a write that fails ends the session with that error; a line of
// progress that cannot be written is left out.
#![tactic(auto)]

ghost use Rattle.std.specs.Prelude.{◌≤◌, length};
ghost use Rattle.promises.specs.Promises.{Planned};

use console::{LF, Scan};
use engine::{State, VALUE};
use files::{BUFFER, LENT, PLAN, chart_text};
use meaning::answers::WRONG_LINE;
use queue::Item;
use std::io;
use std::io::Read;
use std::rt::Files;

// Room for the trace of a run.
const TRACE: usize = 3000;

// Events between two lines of progress.
const EVERY: usize = 100000;

// Where a session stands: whether reports are shown; the answer that stopped it or 0, the widget, the line under way, and what is counted.
#[derive(Clone, Copy)]
struct Stand {
    shown: bool,
    answer: usize,
    state: State,
    scan: Scan,
    done: usize,
    taken: usize,
}

// How many entries of a trace, of three numbers each, say that a transition was taken: those that begin with 1.
fn taken_in(trace: &[i32], entries: usize) -> usize {
    trace
        .chunks_exact(3)
        .take(entries)
        .filter(|entry| entry.first() == Some(&1))
        .count()
}

// Writes what was collected, up to the place.
fn print(rt: &impl Print, out: &[u8], at: usize) -> io::Result<()> {
    if at <= out.len() {
        rt.write_all(&out[..at])?;
    }
    Ok(())
}

// The line of progress.
fn show_progress(rt: &impl Eprint, done: usize) {
    let _ = eprintln!(rt; "{done} events");
}

// The line at the end, where no reports were shown.
fn show_end(
    rt: &impl Print,
    shown: bool,
    answer: usize,
    done: usize,
    taken: usize,
) -> io::Result<()> {
    if shown {
        return Ok(());
    }
    if answer == 0 {
        println!(rt; "{done} events, {taken} transitions")
    } else {
        println!(rt; "{done} events, {taken} transitions, answer {answer}")
    }
}

// The report of a call.
fn show_report(rt: &impl Print, number: usize, trace: &[i32], entries: usize) -> io::Result<()> {
    let mut out = [0u8; BUFFER];
    let at = console::report(&mut out, 0, number, trace, entries);
    print(rt, &out, at)
}

// What is shown of an answer with no entries, and whether it stops the session.
fn refusal(rt: &impl Print, shown: bool, number: usize) -> io::Result<usize> {
    if shown {
        let nothing = [0; 1];
        show_report(rt, number, &nothing, 0)?;
        return Ok(0);
    }
    Ok(number)
}

// What is shown of an event, and whether its answer stops the session.
fn shown_event(
    rt: &(impl Print + Eprint),
    shown: bool,
    number: usize,
    trace: &[i32],
    entries: usize,
    done: usize,
) -> io::Result<usize> {
    if shown {
        show_report(rt, number, trace, entries)?;
        return Ok(0);
    }
    if number == 0 && done % EVERY == 0 {
        show_progress(rt, done);
    }
    Ok(number)
}

// One event.
fn do_event(
    rt: &(impl Print + Eprint),
    plan: &[i32],
    here: Stand,
    event: i32,
    arg: i32,
) -> io::Result<Stand>
    requires { Planned plan.now }
{
    let mut trace = [0; TRACE];
    let r = engine::examined::replay_examined(plan, here.state, &[event, arg], &mut trace);
    let done = here.done.saturating_add(r.done);
    let answer = shown_event(rt, here.shown, r.answer.number, &trace, r.entries, done)?;
    Ok(Stand {
        answer,
        state: r.state,
        done,
        taken: here.taken.saturating_add(taken_in(&trace, r.entries)),
        ..here
    })
}

// The end of a line.
fn do_line(rt: &(impl Print + Eprint), plan: &[i32], here: Stand) -> io::Result<Stand>
    requires { Planned plan.now }
{
    if let Some(Item { event, arg }) = here.scan.line() {
        return do_event(rt, plan, here, event, arg);
    }
    let answer = refusal(rt, here.shown, WRONG_LINE)?;
    Ok(Stand { answer, ..here })
}

// One byte of the input: LF ends the line.
fn feed(rt: &(impl Print + Eprint), plan: &[i32], here: Stand, b: u8) -> io::Result<Stand>
    requires { Planned plan.now }
{
    if b == LF {
        let ended = do_line(rt, plan, here)?;
        return Ok(Stand {
            scan: Scan::empty(),
            ..ended
        });
    }
    Ok(Stand {
        scan: here.scan.feed(b),
        ..here
    })
}

// The bytes of a part of the input, up to a refusal.
fn feed_all(rt: &(impl Print + Eprint), plan: &[i32], here: Stand, part: &[u8]) -> io::Result<Stand>
    requires { Planned plan.now }
{
    let mut at = here;
    for b in part {
        if at.answer != 0 {
            break;
        }
        at = feed(rt, plan, at, *b)?;
    }
    Ok(at)
}

// All of the input, in parts, up to a refusal. A proved loop has to end, and nothing says that the input does: the count of parts is larger
// than any.
fn read_all(rt: &(impl Input + Print + Eprint), plan: &[i32], first: Stand) -> io::Result<Stand>
    requires { Planned plan.now }
{
    let mut here = first;
    for _ in 0..u64::MAX {
        let mut buffer = [0u8; BUFFER];
        let n = rt.reader().read(&mut buffer)?;
        if n == 0 {
            break;
        }
        here = feed_all(rt, plan, here, &buffer[..n])?;
        if here.answer != 0 {
            break;
        }
    }
    Ok(here)
}

// The events from a started widget on; the last line may lack its LF.
fn run_events(
    rt: &(impl Input + Print + Eprint),
    plan: &[i32],
    shown: bool,
    state: State,
) -> io::Result<()>
    requires { Planned plan.now }
{
    let first = Stand {
        shown,
        answer: 0,
        state,
        scan: Scan::empty(),
        done: 0,
        taken: 0,
    };
    let mut last = read_all(rt, plan, first)?;
    if last.answer == 0 && last.scan.began() {
        last = do_line(rt, plan, last)?;
    }
    show_end(rt, shown, last.answer, last.done, last.taken)
}

// A session that ends before its first event.
fn end_early(rt: &impl Print, shown: bool, number: usize) -> io::Result<()> {
    let stopped = refusal(rt, shown, number)?;
    show_end(rt, shown, stopped, 0, 0)
}

// The widget starts, and the events follow; without reports a refused start ends it.
fn run_widget(rt: &(impl Input + Print + Eprint), plan: &[i32], shown: bool) -> io::Result<()>
    requires { Planned plan.now }
{
    let mut trace = [0; TRACE];
    let started = engine::planned::start(plan, engine::unstarted(), &mut trace);
    let number = started.answer.number;
    if shown {
        show_report(rt, number, &trace, started.entries)?;
    } else if number != 0 {
        return show_end(rt, shown, number, 0, 0);
    }
    run_events(rt, plan, shown, started.state)
}

// The plan is examined once.
fn run_plan(rt: &(impl Input + Print + Eprint), plan: &[i32], shown: bool) -> io::Result<()> {
    if let Err(refusal) = engine::plans::examine(plan) {
        return end_early(rt, shown, refusal.number());
    }
    run_widget(rt, plan, shown)
}

// The whole session.
pub fn run(rt: &(impl Files + Input + Print + Eprint), shown: bool) -> io::Result<()> {
    let mut bytes = [0u8; LENT];
    let n = chart_text(rt, &mut bytes)?;
    let mut chart = [0; VALUE];
    let read = engine::read(&bytes[..n], &mut chart);
    if read.number != 0 {
        return end_early(rt, shown, read.number);
    }
    let mut plan = [0; PLAN];
    let compiled = engine::plans::compile(&chart, &mut plan);
    if compiled.answer.number != 0 {
        return end_early(rt, shown, compiled.answer.number);
    }
    run_plan(rt, &plan, shown)
}
