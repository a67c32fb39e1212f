// A plan that was examined, as the steps take it: its numbers where they stand, their counts, and the index of its heads. Made once
// for a call or a replay and lent to every step; that the numbers are well formed and that the rest belongs to them goes with it.
ghost use Rattle.std.specs.Prelude.{◌≡◌};
ghost use Rattle.plan_choice.specs.Heads.{Examined};
ghost use Rattle.plan_choice.specs.Links.{Linked};

use super::links::{LINKS, links_of};
use meaning::plan::Counts;

#[derive(Drop)]
pub struct Plan<'a> {
    pub numbers: &'a [i32],
    pub counts: Counts,
    pub links: [u16; LINKS],
    pub ghost examined: { Examined numbers.now counts },
    pub ghost linked: { Linked numbers.now counts links },
}

impl<'a> Plan<'a> {
    // From numbers that were examined, and their counts.
    pub fn of(numbers: &'a [i32], counts: Counts) -> Self
        requires { Examined numbers.now counts }
        ensures numbers { result.numbers.now ≡ numbers.entry.now }
        ensures counts { result.counts ≡ counts }
    {
        Plan {
            numbers,
            counts,
            links: links_of(numbers, counts),
        }
    }
}
