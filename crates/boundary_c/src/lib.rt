// The entry points of the crate boundary as C calls (docs/HOST.md): each hands on what it is lent, and promises what the function of its
// name promises there. In the order of that crate.
#![tactic(auto)]

ghost use Rattle.promises.specs.Host.{HostChecked, HostRead, HostWrote, HostCompiled, HostExamined, HostUnstarted};
ghost use Rattle.promises.specs.Host.{HostStarted, HostRan, HostPosted, HostDiscarded};
ghost use Rattle.promises.specs.Host.{HostPlanStarted, HostPlanRan, HostPlanPosted, HostPlanDiscarded, HostReplayed};

// ---- charts, texts and plans

// The rules' check.
#[unsafe(no_mangle)]
pub extern "C" fn qh_check(chart: &[i32], report: &mut [i32; 2]) -> i32
    ensures { HostChecked chart.now result report.new }
{
    boundary::qh_check(chart, report)
}

// Reads a chart's text into a chart's numbers.
#[unsafe(no_mangle)]
pub extern "C" fn qh_read(text: &[u8], chart: &mut [i32], report: &mut [i32; 2]) -> i32
    ensures { HostRead text.now chart.old result report.new chart.new }
{
    boundary::qh_read(text, chart, report)
}

// Writes a chart's text; the count is its length in bytes.
#[unsafe(no_mangle)]
pub extern "C" fn qh_write(chart: &[i32], text: &mut [u8], report: &mut [i32; 2]) -> i32
    ensures { HostWrote chart.now text.old result report.new text.new }
{
    boundary::qh_write(chart, text, report)
}

// Compiles a chart into a plan; the count is the plan's length in numbers.
#[unsafe(no_mangle)]
pub extern "C" fn qh_compile(chart: &[i32], plan: &mut [i32], report: &mut [i32; 2]) -> i32
    ensures { HostCompiled chart.now plan.old result report.new plan.new }
{
    boundary::qh_compile(chart, plan, report)
}

// Examines numbers as a plan.
#[unsafe(no_mangle)]
pub extern "C" fn qh_examine(plan: &[i32], report: &mut [i32; 2]) -> i32
    ensures { HostExamined plan.now result report.new }
{
    boundary::qh_examine(plan, report)
}

// A widget not yet started.
#[unsafe(no_mangle)]
pub extern "C" fn qh_unstarted(widget: &mut [i32], report: &mut [i32; 2]) -> i32
    ensures { HostUnstarted widget.old result report.new widget.new }
{
    boundary::qh_unstarted(widget, report)
}

// ---- the calls on a widget over its chart

// Starts the widget, whatever its numbers hold.
#[unsafe(no_mangle)]
pub extern "C" fn qh_start(
    chart: &[i32],
    widget: &mut [i32],
    trace: &mut [i32],
    report: &mut [i32; 2],
) -> i32
    ensures { HostStarted chart.now widget.old trace.old result report.new
        widget.new trace.new }
{
    boundary::qh_start(chart, widget, trace, report)
}

// Runs the front event.
#[unsafe(no_mangle)]
pub extern "C" fn qh_run(
    chart: &[i32],
    widget: &mut [i32],
    trace: &mut [i32],
    report: &mut [i32; 2],
) -> i32
    ensures { HostRan chart.now widget.old trace.old result report.new
        widget.new trace.new }
{
    boundary::qh_run(chart, widget, trace, report)
}

// Posts an event with an argument.
#[unsafe(no_mangle)]
pub extern "C" fn qh_post(
    chart: &[i32],
    widget: &mut [i32],
    event: i32,
    arg: i32,
    report: &mut [i32; 2],
) -> i32
    ensures { HostPosted chart.now widget.old event arg result report.new widget.new }
{
    boundary::qh_post(chart, widget, event, arg, report)
}

// Discards the front event.
#[unsafe(no_mangle)]
pub extern "C" fn qh_discard(chart: &[i32], widget: &mut [i32], report: &mut [i32; 2]) -> i32
    ensures { HostDiscarded chart.now widget.old result report.new widget.new }
{
    boundary::qh_discard(chart, widget, report)
}

// ---- the calls on a widget over a plan

// Starts the widget, whatever its numbers hold.
#[unsafe(no_mangle)]
pub extern "C" fn qh_plan_start(
    plan: &[i32],
    widget: &mut [i32],
    trace: &mut [i32],
    report: &mut [i32; 2],
) -> i32
    ensures { HostPlanStarted plan.now widget.old trace.old result report.new
        widget.new trace.new }
{
    boundary::qh_plan_start(plan, widget, trace, report)
}

// Runs the front event.
#[unsafe(no_mangle)]
pub extern "C" fn qh_plan_run(
    plan: &[i32],
    widget: &mut [i32],
    trace: &mut [i32],
    report: &mut [i32; 2],
) -> i32
    ensures { HostPlanRan plan.now widget.old trace.old result report.new
        widget.new trace.new }
{
    boundary::qh_plan_run(plan, widget, trace, report)
}

// Posts an event with an argument.
#[unsafe(no_mangle)]
pub extern "C" fn qh_plan_post(
    plan: &[i32],
    widget: &mut [i32],
    event: i32,
    arg: i32,
    report: &mut [i32; 2],
) -> i32
    ensures { HostPlanPosted plan.now widget.old event arg result report.new widget.new }
{
    boundary::qh_plan_post(plan, widget, event, arg, report)
}

// Discards the front event.
#[unsafe(no_mangle)]
pub extern "C" fn qh_plan_discard(plan: &[i32], widget: &mut [i32], report: &mut [i32; 2]) -> i32
    ensures { HostPlanDiscarded plan.now widget.old result report.new widget.new }
{
    boundary::qh_plan_discard(plan, widget, report)
}

// Posts and runs events, each number with its argument after it, up to the first refusal; the trace is the last run's.
#[unsafe(no_mangle)]
pub extern "C" fn qh_plan_replay(
    plan: &[i32],
    widget: &mut [i32],
    events: &[i32],
    trace: &mut [i32],
    report: &mut [i32; 3],
) -> i32
    ensures { HostReplayed plan.now widget.old events.now trace.old result
        report.new widget.new trace.new }
{
    boundary::qh_plan_replay(plan, widget, events, trace, report)
}
