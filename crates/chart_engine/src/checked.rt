// The calls for a caller that has checked its chart once: each requires what check promises with answer 0, and promises what the call
// that checks does.
ghost use Rattle.meaning.specs.Rules.{Ruled};
ghost use Rattle.promises.specs.Promises.{Started, Ran, Posted, Discarded};

use meaning::{Called, State};
use queue_calls::{discard_ruled, post_ruled};
use reaction::running::run_ruled;
use reaction::starting::start_ruled;

pub fn start_checked(chart: &[i32], state: State, trace: &mut [i32]) -> Called
    requires { Ruled chart.now }
    ensures { Started chart.now state trace.old result trace.new }
{
    start_ruled(chart, state, trace)
}

pub fn run_checked(chart: &[i32], state: State, trace: &mut [i32]) -> Called
    requires { Ruled chart.now }
    ensures { Ran chart.now state trace.old result trace.new }
{
    run_ruled(chart, state, trace)
}

pub fn post_checked(chart: &[i32], state: State, event: i32, arg: i32) -> Called
    requires { Ruled chart.now }
    ensures { Posted chart.now state event arg result }
{
    post_ruled(chart, state, event, arg)
}

pub fn discard_checked(chart: &[i32], state: State) -> Called
    requires { Ruled chart.now }
    ensures { Discarded chart.now state result }
{
    discard_ruled(chart, state)
}
