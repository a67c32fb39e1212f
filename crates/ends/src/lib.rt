// How a call that makes a reaction ends, over a chart or over a plan (01, "Answer numbers"): refused, with the state as it was and the lent
// trace zeroed; or done, with the state after it, the count of entries, and 0 past the last entry.
#![tactic(auto)]

ghost use Rattle.std.specs.Prelude.{◌≡◌, ◌≤◌, IfOk, length};
ghost use Rattle.meaning.specs.Answers.{number_by, place_by};
ghost use Rattle.meaning.specs.Calls.{called, lent, outcome, as_found as refusal};
ghost use Rattle.widget.specs.View.{went as gone};

use meaning::answers::{DONE, Refusal};
use meaning::{Answer, Called, State};
use queue_calls::answers::refused;
use sizes::ENTRY;
use widget::clear_from;

// "Any other leaves the state as it was and zeroes the lent output, its count."
pub fn refuse(why: Refusal, state: State, trace: &mut [i32]) -> Called
    ensures { (result ≡ called (refusal (number_by why) (place_by why) state))
        × (trace.new ≡ lent (length trace.old) (refusal (number_by why) (place_by why) state)) }
{
    clear_from(trace, 0);
    refused(why.number(), why.place(), state)
}

// The end of a call whose steps went so, over the widget's state after them. No place is given with a step's refusal.
pub fn finish(state: State, went: Result<usize, Refusal>, after: State, trace: &mut [i32]) -> Called
    requires { IfOk went (λ at. at ≤ length trace.old) }
    ensures { (result ≡ called (outcome state (gone went after trace.old)))
        × (trace.new ≡ lent (length trace.old) (outcome state (gone went after trace.old))) }
{
    match went {
        Err(why) => {
            clear_from(trace, 0);
            refused(why.number(), 0, state)
        }
        Ok(at) => {
            clear_from(trace, at);
            Called {
                answer: Answer {
                    number: DONE,
                    place: 0,
                },
                state: after,
                entries: at / ENTRY,
            }
        }
    }
}
