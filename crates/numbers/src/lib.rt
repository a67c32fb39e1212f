// Signed numbers without tears: exact sums, values held to a range, tests of equality and range, and
// numbers as places. Each function equals a definition of specs/ on every input, so that the crates
// above go by those definitions and meet no signed conversion of their own.
#![tactic(auto)]

ghost use Rattle.std.specs.Prelude.{◌≡◌, pos, ◌+ℤ◌, ◌<◌};
ghost use Rattle.std.specs.Int.Signed.{lt_z};
ghost use Rattle.numbers.specs.Equal.{eq_z};
ghost use Rattle.numbers.specs.Range.{within, in_range};
ghost use Rattle.numbers.specs.Hold.{hold_z};
ghost use Rattle.numbers.specs.Place.{place_of};
ghost use Rattle.numbers.specs.Reference.{ref, NOWHERE};

use sizes::MOST;

// One past every i32, and past every count of 01: nothing has this number.
pub const NOWHERE: usize = 2147483648;

// An i32 as an i64: the same number.
pub fn wide(x: i32) -> i64
    ensures { result ≡ x }
{
    i64::from(x)
}

// The sum of two i32 is exact as an i64.
pub fn sum(x: i32, y: i32) -> i64
    ensures { result ≡ x +ℤ y }
{
    wide(x) + wide(y)
}

// Whether two numbers are equal.
pub fn same(x: i32, y: i32) -> bool
    ensures { result ≡ eq_z x y }
{
    x == y
}

// Whether the first is below the second.
pub fn less(x: i32, y: i32) -> bool
    ensures { result ≡ lt_z x y }
{
    x < y
}

// Whether low ≤ x ≤ high.
pub fn between(low: i32, x: i32, high: i32) -> bool
    ensures { result ≡ within low x high }
{
    low <= x && x <= high
}

// 01, "Sizes": every constant, argument and range end lies within ±1,000,000,000.
pub fn in_range(x: i32) -> bool
    ensures { result ≡ in_range x }
{
    between(-MOST, x, MOST)
}

// 01: set, add and take hold the value at the nearer end of the variable's range.
pub fn hold(value: i64, low: i32, high: i32) -> i32
    ensures { result ≡ hold_z value low high }
{
    if value < wide(low) {
        return low;
    }
    if wide(high) < value {
        return high;
    }
    value as i32
}

// The sum is exact: two i32 always fit an i64.
pub fn add_held(v: i32, c: i32, low: i32, high: i32) -> i32
    ensures { result ≡ hold_z (v +ℤ c) low high }
{
    hold(sum(v, c), low, high)
}

// A slot's content: one below 0 is the empty slot's marker, never a state.
pub fn place_of(x: i32) -> Option<usize>
    ensures { result ≡ place_of x }
{
    if x < 0 { None } else { Some(x as usize) }
}

// A number that names a state, variable or event; one below 0 names nothing.
pub fn reference(named: i32) -> usize
    ensures { result ≡ ref named }
{
    place_of(named).unwrap_or(NOWHERE)
}

// A small number, signed.
pub fn number(n: usize) -> i32
    requires { n < NOWHERE }
    ensures { result ≡ pos n }
{
    n as i32
}
