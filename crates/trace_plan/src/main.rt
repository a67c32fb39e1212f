// The trace program's session over the compiled plan: it must write what the trace program writes.
#![tactic(auto)]

use std::io;

fn main(rt: HostRuntime) -> io::Result<()> {
    plan_session::run(&rt, true)
}
