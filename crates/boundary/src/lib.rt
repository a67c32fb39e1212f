// The engine for a host that is not Rattle (docs/HOST.md): entry points on numbers and slices. The answer is the result; the place given
// with it and the count of entries, bytes or numbers go into `report`. A widget is lent as numbers (crate saved), and a refused call
// leaves them as they were. In the order: charts, texts and plans; the calls on a widget over its chart; those over a plan.
#![tactic(auto)]

ghost use Rattle.promises.specs.Host.{HostChecked, HostRead, HostWrote, HostCompiled, HostExamined, HostUnstarted};
ghost use Rattle.promises.specs.Host.{HostStarted, HostRan, HostPosted, HostDiscarded};
ghost use Rattle.promises.specs.Host.{HostPlanStarted, HostPlanRan, HostPlanPosted, HostPlanDiscarded, HostReplayed};

use engine::{Answer, Called};
use meaning::answers::FOREIGN;
use saved::{clear, load};
use sizes::STATE_NUMBERS;
use telling::{end, stop, tell, too_few};

// ---- charts, texts and plans

// The rules' check.
pub fn qh_check(chart: &[i32], report: &mut [i32; 2]) -> i32
    ensures { HostChecked chart.now result report.new }
{
    let checked = Answer::from(engine::check(chart));
    tell(checked, 0, report)
}

// Reads a chart's text into a chart's numbers.
pub fn qh_read(text: &[u8], chart: &mut [i32], report: &mut [i32; 2]) -> i32
    ensures { HostRead text.now chart.old result report.new chart.new }
{
    let read = engine::read(text, chart);
    tell(read, 0, report)
}

// Writes a chart's text; the count is its length in bytes.
pub fn qh_write(chart: &[i32], text: &mut [u8], report: &mut [i32; 2]) -> i32
    ensures { HostWrote chart.now text.old result report.new text.new }
{
    let written = engine::write(chart, text);
    let answer = written.answer;
    tell(answer, written.length, report)
}

// Compiles a chart into a plan; the count is the plan's length in numbers.
pub fn qh_compile(chart: &[i32], plan: &mut [i32], report: &mut [i32; 2]) -> i32
    ensures { HostCompiled chart.now plan.old result report.new plan.new }
{
    let compiled = engine::plans::compile(chart, plan);
    let answer = compiled.answer;
    tell(answer, compiled.length, report)
}

// Examines numbers as a plan.
pub fn qh_examine(plan: &[i32], report: &mut [i32; 2]) -> i32
    ensures { HostExamined plan.now result report.new }
{
    let examined = Answer::from(engine::plans::examine(plan));
    tell(examined, 0, report)
}

// A widget not yet started.
pub fn qh_unstarted(widget: &mut [i32], report: &mut [i32; 2]) -> i32
    ensures { HostUnstarted widget.old result report.new widget.new }
{
    let state = engine::unstarted();
    if widget.len() < STATE_NUMBERS { // 6 alone
        let foreign = Answer {
            number: FOREIGN,
            place: 0,
        };
        let called = Called {
            answer: foreign,
            state: state,
            entries: 0,
        };
        return end(called, widget, report);
    }
    let done = Answer {
        number: 0,
        place: 0,
    };
    let called = Called {
        answer: done,
        state: state,
        entries: 0,
    };
    end(called, widget, report)
}

// ---- the calls on a widget over its chart

// Starts the widget, whatever its numbers hold.
pub fn qh_start(chart: &[i32], widget: &mut [i32], trace: &mut [i32], report: &mut [i32; 2]) -> i32
    ensures { HostStarted chart.now widget.old trace.old result report.new
        widget.new trace.new }
{
    if widget.len() < STATE_NUMBERS { // 3 first, then 6
        let verdict = Answer::from(engine::check(chart));
        let answer = too_few(verdict);
        clear(trace);
        return tell(answer, 0, report);
    }
    let state = load(widget);
    let called = engine::start(chart, state, trace);
    end(called, widget, report)
}

// Runs the front event.
pub fn qh_run(chart: &[i32], widget: &mut [i32], trace: &mut [i32], report: &mut [i32; 2]) -> i32
    ensures { HostRan chart.now widget.old trace.old result report.new
        widget.new trace.new }
{
    let state = load(widget);
    let called = engine::run(chart, state, trace);
    end(called, widget, report)
}

// Posts an event with an argument.
pub fn qh_post(
    chart: &[i32],
    widget: &mut [i32],
    event: i32,
    arg: i32,
    report: &mut [i32; 2],
) -> i32
    ensures { HostPosted chart.now widget.old event arg result report.new widget.new }
{
    let state = load(widget);
    let called = engine::post(chart, state, event, arg);
    end(called, widget, report)
}

// Discards the front event.
pub fn qh_discard(chart: &[i32], widget: &mut [i32], report: &mut [i32; 2]) -> i32
    ensures { HostDiscarded chart.now widget.old result report.new widget.new }
{
    let state = load(widget);
    let called = engine::discard(chart, state);
    end(called, widget, report)
}

// ---- the calls on a widget over a plan

// Starts the widget, whatever its numbers hold.
pub fn qh_plan_start(
    plan: &[i32],
    widget: &mut [i32],
    trace: &mut [i32],
    report: &mut [i32; 2],
) -> i32
    ensures { HostPlanStarted plan.now widget.old trace.old result report.new
        widget.new trace.new }
{
    if widget.len() < STATE_NUMBERS { // 5 first, then 6
        let verdict = Answer::from(engine::plans::examine(plan));
        let answer = too_few(verdict);
        clear(trace);
        return tell(answer, 0, report);
    }
    let state = load(widget);
    let called = engine::planned::start(plan, state, trace);
    end(called, widget, report)
}

// Runs the front event.
pub fn qh_plan_run(
    plan: &[i32],
    widget: &mut [i32],
    trace: &mut [i32],
    report: &mut [i32; 2],
) -> i32
    ensures { HostPlanRan plan.now widget.old trace.old result report.new
        widget.new trace.new }
{
    let state = load(widget);
    let called = engine::planned::run(plan, state, trace);
    end(called, widget, report)
}

// Posts an event with an argument.
pub fn qh_plan_post(
    plan: &[i32],
    widget: &mut [i32],
    event: i32,
    arg: i32,
    report: &mut [i32; 2],
) -> i32
    ensures { HostPlanPosted plan.now widget.old event arg result report.new widget.new }
{
    let state = load(widget);
    let called = engine::planned::post(plan, state, event, arg);
    end(called, widget, report)
}

// Discards the front event.
pub fn qh_plan_discard(plan: &[i32], widget: &mut [i32], report: &mut [i32; 2]) -> i32
    ensures { HostPlanDiscarded plan.now widget.old result report.new widget.new }
{
    let state = load(widget);
    let called = engine::planned::discard(plan, state);
    end(called, widget, report)
}

// Posts and runs events, each number with its argument after it, up to the first refusal; the trace is the last run's.
pub fn qh_plan_replay(
    plan: &[i32],
    widget: &mut [i32],
    events: &[i32],
    trace: &mut [i32],
    report: &mut [i32; 3],
) -> i32
    ensures { HostReplayed plan.now widget.old events.now trace.old result
        report.new widget.new trace.new }
{
    let state = load(widget);
    let replayed = engine::planned::replay(plan, state, events, trace);
    stop(replayed, widget, report)
}
