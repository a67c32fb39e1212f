// What a call gives where it refuses and where it only changes the queue (01, "Answer numbers").
ghost use Rattle.std.specs.Prelude.{◌≡◌};
ghost use Rattle.meaning.specs.Widget.{set_queue};
ghost use Rattle.meaning.specs.Calls.{called, as_found as refusal};
ghost use Rattle.queue_calls.specs.Parts.{quiet};

use meaning::{Answer, Called, State};
use queue::Queue;

// 01: any other number leaves the state as it was, and no entry counts.
pub fn refused(number: usize, place: usize, state: State) -> Called
    ensures { result ≡ called (refusal number place state) }
{
    Called {
        answer: Answer { number, place },
        state,
        entries: 0,
    }
}

// Done, with nothing written.
pub fn done(state: State) -> Called
    ensures { result ≡ called (quiet state) }
{
    Called {
        answer: Answer {
            number: 0,
            place: 0,
        },
        state,
        entries: 0,
    }
}

// The state with another queue.
pub fn with_queue(state: State, queue: Queue) -> State
    ensures { result ≡ set_queue queue state }
{
    let mut after = state;
    after.queue = queue;
    after
}
