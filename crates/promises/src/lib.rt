// What each public function promises: specs/ has one definition each. The one struct here is what a replay gives.
#![tactic(auto)]

use meaning::{Answer, State};

// A replay: the answer that stopped it or 0, the state after it, how many events were done, and the entries of the last run.
#[derive(Drop)]
pub struct Replayed {
    pub answer: Answer,
    pub state: State,
    pub done: usize,
    pub entries: usize,
}
