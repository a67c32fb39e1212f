// The part of the engine's door that is over charts: the check, chart text, the calls on a widget. The engine hands these
// functions on, so that a host sees one door; they are a crate of their own so that an edit here proves again only what charts
// stand on. A chart is a value in lent numbers, and no function here asks anything of what it is lent; checked has the calls for
// a chart that was checked once.
#![tactic(auto)]

pub mod checked;

ghost use Rattle.meaning.specs.Answers.{answer_by};
ghost use Rattle.promises.specs.Promises.{Checked, Read, Wrote, Unstarted, Started, Ran, Posted, Discarded};

use checked::{discard_checked, post_checked, run_checked, start_checked};
use ends::refuse;
use meaning::answers::{DONE, Refusal};
use meaning::{Answer, Called, State, Written};
use queue::Queue;
use queue_calls::answers::refused;
use reader::read::read_rows;
use rules::check_rows;
use rules::value::rule_0;
use sizes::{STATES, VARIABLES};
use writer::write_passed;

// The rules in order: R0, which is only for a chart handed over as a value; then R1 to R7.
pub fn check(chart: &[i32]) -> Result<(), Refusal>
    ensures { Checked chart.now (answer_by result) }
{
    if !rule_0(chart) {
        return Err(Refusal::RuleFails(0));
    }
    check_rows(chart)
}

// A text read into lent numbers: its lines first, then the rules R1 to R7. A refused read leaves all of the numbers 0.
pub fn read(text: &[u8], chart: &mut [i32]) -> Answer
    ensures { Read text.now chart.old result chart.new }
{
    let lines = read_rows(text, chart);
    if lines.number != 0 {
        return lines;
    }
    if let Err(refusal) = check_rows(chart) {
        chart.fill(0);
        return Answer {
            number: refusal.number(),
            place: refusal.place(),
        };
    }
    Answer {
        number: DONE,
        place: 0,
    }
}

// A chart written as text into lent bytes: 3 where it fails a rule, 13 where the text is longer. A refusal leaves all of the bytes 0.
pub fn write(chart: &[i32], out: &mut [u8]) -> Written
    ensures { Wrote chart.now out.old result out.new }
{
    if let Err(refusal) = check(chart) { // before 13
        out.fill(0);
        return Written {
            answer: Answer {
                number: refusal.number(),
                place: refusal.place(),
            },
            length: 0,
        };
    }
    write_passed(chart, out)
}

// A widget not yet started: any state will do for start, and this one needs no other crate.
pub fn unstarted() -> State
    ensures { Unstarted result }
{
    let active = [false; STATES];
    let slots = [-1; STATES];
    let vars = [0; VARIABLES];
    State {
        started: false,
        active: active,
        slots: slots,
        vars: vars,
        queue: Queue::empty(),
    }
}

// Starts a widget: 3 where the chart fails a rule; then the first refusal met. It tests neither 7 nor 6.
pub fn start(chart: &[i32], state: State, trace: &mut [i32]) -> Called
    ensures { Started chart.now state trace.old result trace.new }
{
    if let Err(refusal) = check(chart) { // "chart 3 .. first"
        return refuse(refusal, state, trace); // before the first refusal met
    }
    start_checked(chart, state, trace)
}

// Runs the front event: 3 where the chart fails a rule; then 7, 6, 8; then the first refusal met.
pub fn run(chart: &[i32], state: State, trace: &mut [i32]) -> Called
    ensures { Ran chart.now state trace.old result trace.new }
{
    if let Err(refusal) = check(chart) {
        return refuse(refusal, state, trace); // before 7, 6, 8
    }
    run_checked(chart, state, trace)
}

// Appends an event with an argument: 3 where the chart fails a rule; then 7, 6, and 10 before 9.
pub fn post(chart: &[i32], state: State, event: i32, arg: i32) -> Called
    ensures { Posted chart.now state event arg result }
{
    if let Err(refusal) = check(chart) {
        return refused(refusal.number(), refusal.place(), state); // before 7, 6, 10, 9
    }
    post_checked(chart, state, event, arg)
}

// Removes the front event: 3 where the chart fails a rule; then 7, 6, 8.
pub fn discard(chart: &[i32], state: State) -> Called
    ensures { Discarded chart.now state result }
{
    if let Err(refusal) = check(chart) {
        return refused(refusal.number(), refusal.place(), state); // before 7, 6, 8
    }
    discard_checked(chart, state)
}
