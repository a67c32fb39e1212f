// The trace program's session over a chart that passes the rules (01, the end of "Checked by example"): it starts, then posts and runs
// each line. The widget and the line under way go by value, and a whole line hands the widget on: the bytes inside a line change the line
// under way only. What is printed is written into a lent slice, and what the engine writes of a call into lent numbers, with room for 1,000
// entries, the same for the whole session.
#![tactic(auto)]

ghost use Rattle.std.specs.Prelude.{◌≡◌, length};
ghost use Rattle.meaning.specs.Rules.{Ruled};
ghost use Rattle.meaning.specs.Value.{VALUE, chart_of};
ghost use Rattle.meaning.specs.Calls.{start as starts, run as runs, unstarted as none};
ghost use Rattle.meaning.specs.Text.{read};
ghost use Rattle.meaning.specs.Program.{ROOM as Room, reported, do_line as turn_of};
ghost use Rattle.console.specs.Scan.{line_at};
ghost use Rattle.console.specs.Session.{ended, finished};
ghost use Rattle.pen.specs.Pen.{pen};
ghost use Rattle.session.specs.Turned.{Takes, Passes, Opens, quiet, seen};
ghost use Rattle.session.specs.Walked.{Walks, roomy};

use console::{HEAD, LINE, Scan, collect};
use meaning::answers::WRONG_LINE;
use meaning::{Input, State};
use queue::Item;
use sizes::ENTRY;

// "With room for 1,000 entries", three numbers each.
const ENTRIES: usize = 1000;

pub const ROOM: usize = ENTRY * ENTRIES;

// Free room in a slice of bytes that is enough for the report of any call.
pub const LARGEST: usize = HEAD + LINE * ENTRIES;

// The widget afterwards, and the place behind what was printed.
#[derive(Drop)]
pub struct Turned {
    pub state: State,
    pub at: usize,
}

// The widget and the line under way, and the place behind what was printed.
#[derive(Drop)]
pub struct Under {
    pub state: State,
    pub scan: Scan,
    pub at: usize,
}

// Where a walk over a part of the input stopped: the place of the next byte, the widget and the line under way.
#[derive(Drop)]
pub struct Walked {
    pub upto: usize,
    pub under: Under,
}

// What prints an answer and no entry: R, number, 0.
pub fn refusal(number: usize, state: State, out: &mut [u8], at: usize) -> Turned
    ensures { Takes (quiet number state) out.old at out.new result }
{
    let nothing = [0; 1];
    let place = console::report(out, at, number, &nothing, 0);
    Turned { state, at: place }
}

// "it starts"
pub fn started(chart: &[i32], out: &mut [u8], at: usize, trace: &mut [i32]) -> Turned
    requires { Ruled chart.now × (length trace.old ≡ Room) }
    ensures { Takes (reported (starts (chart_of chart.now) none Room)) out.old at out.new result }
{
    let called = engine::checked::start_checked(chart, engine::unstarted(), trace);
    let place = console::report(out, at, called.answer.number, trace, called.entries);
    Turned {
        state: called.state,
        at: place,
    }
}

// "A refused chart prints the same and ends the program", an Err; else the widget starts, and the session goes on.
pub fn begin(
    bytes: &[u8],
    chart: &mut [i32],
    out: &mut [u8],
    at: usize,
    trace: &mut [i32],
) -> Result<Turned, Turned>
    requires { (length chart.old ≡ VALUE) × (length trace.old ≡ Room) }
    ensures { Opens (read bytes.now VALUE) chart.new out.old at out.new result }
{
    let answer = engine::read(bytes, chart);
    if answer.number != 0 {
        return Err(refusal(answer.number, engine::unstarted(), out, at));
    }
    Ok(started(chart, out, at, trace))
}

// "runs each line": the run of the front event.
fn ran(chart: &[i32], state: State, out: &mut [u8], at: usize, trace: &mut [i32]) -> Turned
    requires { Ruled chart.now × (length trace.old ≡ Room) }
    ensures { Takes (reported (runs (chart_of chart.now) state Room)) out.old at out.new result }
{
    let called = engine::checked::run_checked(chart, state, trace);
    let place = console::report(out, at, called.answer.number, trace, called.entries);
    Turned {
        state: called.state,
        at: place,
    }
}

// A line: "Of posts only a refused one prints: R, number, 0; it is not run"; "A line of another form prints `R 1 0`".
pub fn turn(
    chart: &[i32],
    state: State,
    line: Input,
    out: &mut [u8],
    at: usize,
    trace: &mut [i32],
) -> Turned
    requires { Ruled chart.now × (length trace.old ≡ Room) }
    ensures { Takes (turn_of (chart_of chart.now) state line) out.old at out.new result }
{
    let Some(Item { event, arg }) = line else {
        return refusal(WRONG_LINE, state, out, at);
    };
    let posted = engine::checked::post_checked(chart, state, event, arg);
    let number = posted.answer.number;
    if number != 0 {
        return refusal(number, posted.state, out, at);
    }
    ran(chart, posted.state, out, at, trace)
}

// The end of a line: its turn, and the next line has not begun.
fn line_ends(
    chart: &[i32],
    state: State,
    scan: Scan,
    out: &mut [u8],
    at: usize,
    trace: &mut [i32],
) -> Under
    requires { Ruled chart.now × (length trace.old ≡ Room) }
    ensures { Passes (ended (turn_of (chart_of chart.now) state (line_at scan)))
        out.old at out.new result }
{
    let ended = turn(chart, state, scan.line(), out, at, trace);
    Under {
        state: ended.state,
        scan: Scan::empty(),
        at: ended.at,
    }
}

// Whether there is room for one more report behind the place.
fn has_room(out: &[u8], at: usize) -> bool
    ensures { result ≡ roomy (pen out.now at) }
{
    let n = out.len();
    LARGEST <= n && at <= n - LARGEST
}

// The bytes of a part of the input from a place on, line by line: the walk stops at the part's end, where the line may go on in the next
// part, or where there might not be room for one more report.
pub fn walk(
    chart: &[i32],
    part: &[u8],
    from: usize,
    under: Under,
    out: &mut [u8],
    trace: &mut [i32],
) -> Walked
    requires { Ruled chart.now × (length trace.old ≡ Room) }
    ensures { Walks (turn_of (chart_of chart.now))
        part.now from (seen under) out.old under.at out.new result }
{
    let mut now = under;
    let mut i = from;
    // No count: each line says where the next one begins.
    while i < part.len() {
        if !has_room(out, now.at) {
            break;
        }
        let line = collect(part, i, now.scan);
        if line.upto == part.len() {
            now = Under {
                scan: line.scan,
                ..now
            };
            i = line.upto;
            break;
        }
        now = line_ends(chart, now.state, line.scan, out, now.at, trace);
        i = line.upto + 1;
    }
    Walked {
        upto: i,
        under: now,
    }
}

// The end of the input: "The last line may lack its LF".
pub fn finish(chart: &[i32], under: Under, out: &mut [u8], trace: &mut [i32]) -> Under
    requires { Ruled chart.now × (length trace.old ≡ Room) }
    ensures { Passes (finished (turn_of (chart_of chart.now)) (seen under))
        out.old under.at out.new result }
{
    if under.scan.began() {
        return line_ends(chart, under.state, under.scan, out, under.at, trace);
    }
    under
}
