// The replay program, for whoever looks at a recorded session: what its events did, in one line.
#![tactic(auto)]

use std::io;

fn main(rt: HostRuntime) -> io::Result<()> {
    plan_session::run(&rt, false)
}
