// The trace program (01, the end of "Checked by example"): reads chart.txt, a missing one as empty, and standard input to its end, in
// parts; what it prints is collected and written whenever there might not be room for one more report. It reads and writes, and decides
// nothing itself: what a text and the bytes of a part do is said by the functions that it calls. A line may have any length, and the input
// any size. A read or a write that fails ends it with that error.
#![tactic(auto)]

ghost use Rattle.std.specs.Prelude.{◌≡◌, ◌+◌, ◌≤◌, length, IfOk, OnErr};
ghost use Rattle.meaning.specs.Value.{chart_of};
ghost use Rattle.meaning.specs.Program.{ROOM as Room, do_line};
ghost use Rattle.meaning.specs.Rules.{Ruled};
ghost use Rattle.session.specs.Turned.{LARGEST as Largest, seen};
ghost use Rattle.session.specs.Walked.{Fed};

use console::Scan;
use engine::VALUE;
use files::{BUFFER, LENT, chart_text};
use meaning::State;
use session::{LARGEST, ROOM, Under};
use std::io;
use std::io::Read;

// Writes what was collected, up to the place.
fn print(rt: &impl Print, out: &[u8], at: usize) -> io::Result<()>
    requires { at ≤ length out.now }
{
    rt.write_all(&out[..at])
}

// Room for one more report: what was collected is written where there is less.
fn with_room(rt: &impl Print, out: &[u8], at: usize) -> io::Result<usize>
    requires { (at ≤ length out.now) × (Largest ≤ length out.now) }
    ensures { IfOk result (λ place. place + Largest ≤ length out.now) }
{
    if out.len() - at < LARGEST {
        print(rt, out, at)?;
        return Ok(0);
    }
    Ok(at)
}

// All bytes of a part of the input, in as many walks as the room needs: what was collected is written between them.
fn feed_all(
    rt: &impl Print,
    chart: &[i32],
    part: &[u8],
    under: Under,
    out: &mut [u8],
    trace: &mut [i32],
) -> io::Result<Under>
    requires { Ruled chart.now × (under.at + Largest ≤ length out.old) × (length trace.old ≡ Room) }
    ensures ok { IfOk result (λ fed. Fed (do_line (chart_of chart.now)) part.now (seen under) out.new fed) }
    ensures err { OnErr result ((length out.new ≡ length out.old) × (length trace.new ≡ length trace.old)) }
{
    let mut now = under;
    let mut i = 0;
    // No count: each walk says how far it came.
    while i < part.len() {
        let walked = session::walk(chart, part, i, now, out, trace);
        let at = with_room(rt, out, walked.under.at)?;
        now = Under { at, ..walked.under };
        i = walked.upto;
    }
    Ok(now)
}

// All of the input, in parts. A proved loop has to end, and nothing says that the input does: the count of parts is larger than any.
fn read_all(
    rt: &(impl Input + Print),
    chart: &[i32],
    under: Under,
    out: &mut [u8],
    trace: &mut [i32],
) -> io::Result<Under>
    requires { Ruled chart.now × (under.at + Largest ≤ length out.old) × (length trace.old ≡ Room) }
    ensures ok { IfOk result (λ read. read.at + Largest ≤ length out.new) }
    ensures err { OnErr result ((length out.new ≡ length out.old) × (length trace.new ≡ length trace.old)) }
{
    let mut now = under;
    'parts: for _ in 0..u64::MAX {
        let mut buffer = [0u8; BUFFER];
        let n = rt.reader().read(&mut buffer)?;
        if n == 0 {
            break;
        }
        now = feed_all(rt, chart, &buffer[..n], now, out, trace)?;
    }
    Ok(now)
}

// "then posts and runs each line"
fn run_session(
    rt: &(impl Input + Print),
    chart: &[i32],
    state: State,
    at: usize,
    out: &mut [u8],
    trace: &mut [i32],
) -> io::Result<()>
    requires { Ruled chart.now × (at ≤ length out.old) × (Largest ≤ length out.old) × (length trace.old ≡ Room) }
{
    let at = with_room(rt, out, at)?;
    let first = Under {
        state,
        scan: Scan::empty(),
        at,
    };
    let read = read_all(rt, chart, first, out, trace)?;
    let last = session::finish(chart, read, out, trace);
    print(rt, out, last.at)
}

fn main(rt: HostRuntime) -> io::Result<()> {
    let mut bytes = [0u8; LENT];
    let n = chart_text(&rt, &mut bytes)?;
    let mut chart = [0; VALUE];
    let mut out = [0u8; BUFFER];
    let mut trace = [0; ROOM];
    match session::begin(&bytes[..n], &mut chart, &mut out, 0, &mut trace) {
        Ok(started) => run_session(&rt, &chart, started.state, started.at, &mut out, &mut trace),
        Err(ended) => print(&rt, &out, ended.at),
    }
}
