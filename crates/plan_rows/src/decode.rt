// What the numbers of a head's guard say, turned into its declared type in one place, on every input as the definition of the same name
// in the crate meaning. An instruction's numbers are read where they stand.
ghost use Rattle.std.specs.Prelude.{◌≡◌};
ghost use Rattle.meaning.specs.WellFormed.{head_guard_by};

use meaning::chart::{Guard, Sign};
use numbers::reference;

// The sign: 0 none, 1 =, 2 <, 3 >.
pub fn head_guard_by(v: i32, g: i32, x: i32) -> Guard
    ensures { result ≡ head_guard_by v g x }
{
    match reference(g) {
        1 => Guard::Compares(reference(v), Sign::Equal, x),
        2 => Guard::Compares(reference(v), Sign::Less, x),
        3 => Guard::Compares(reference(v), Sign::More, x),
        _ => Guard::Always,
    }
}
