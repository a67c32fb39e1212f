// Tests of one number: that it names one of so many, that it is a count within its ends.
ghost use Rattle.std.specs.Prelude.{◌≡◌, ◌<◌};
ghost use Rattle.numbers.specs.Reference.{NOWHERE};
ghost use Rattle.meaning.specs.Value.{count_fits};
ghost use Rattle.meaning.specs.WellFormed.{one_of};

use numbers::{between, number, reference};

// Does the number name one of n?
pub fn one_of(n: usize, z: i32) -> bool
    ensures { result ≡ one_of n z }
{
    reference(z) < n
}

// Is it a count from least to most?
pub fn count_fits(least: usize, most: usize, z: i32) -> bool
    requires { (least < NOWHERE) × (most < NOWHERE) }
    ensures { result ≡ count_fits least most z }
{
    between(number(least), z, number(most))
}
