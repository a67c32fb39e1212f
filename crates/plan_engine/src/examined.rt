// The calls for a caller that has examined its plan once: each requires what examine promises with answer 0, and promises what the call
// that examines does.
ghost use Rattle.promises.specs.Promises.{Planned, PlanReplayed};

use meaning::State;
use promises::Replayed;
use replaying::replay_planned;

pub fn replay_examined(plan: &[i32], state: State, events: &[i32], trace: &mut [i32]) -> Replayed
    requires { Planned plan.now }
    ensures { PlanReplayed plan.now state events.now trace.old result trace.new }
{
    replay_planned(plan, state, events, trace)
}
