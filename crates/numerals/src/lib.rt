// Numbers of the text (01, "Chart text"), read from a field's bytes: decimal, of any length. The value is held at one past the
// range, so that no number of digits overflows, and each byte is looked at once.
#![tactic(auto)]

ghost use Rattle.std.specs.Prelude.{◌≡◌, ◌≤◌};
ghost use Rattle.meaning.specs.Number.{value, capped, natural_of, with_no_sign, minus, number_of};
ghost use Rattle.numerals.specs.Small.{grown as grown_by, with_digit};

use meaning::Fault;
use sizes::MOST;

// One past the range: it stands for every number beyond.
pub const BEYOND: u64 = (MOST as u64) + 1;
// Digits of a larger value, and one digit more, are beyond.
const TENTH: u64 = (MOST as u64) / 10;

// The value with one digit more.
pub fn grown(n: u64, b: u8) -> u64
    requires { (48 ≤ b) × (b ≤ 57) }
    ensures { result ≡ grown_by n b }
{
    if TENTH < n {
        return BEYOND;
    }
    let m = n * 10 + u64::from(b - b'0');
    if m < BEYOND { m } else { BEYOND }
}

// The value with one byte more, where that is a digit.
pub fn with_digit(n: u64, b: u8) -> Option<u64>
    ensures { result ≡ with_digit n b }
{
    match b {
        b'0'..=b'9' => Some(grown(n, b)),
        _ => None,
    }
}

// Digits alone.
#[tactic(auto, using(crate::proofs::ReadLaws::of_digits), unfolding(meaning::specs::Number::capped))]
fn digits_of(s: &[u8]) -> Result<u64, Fault>
    ensures { result ≡ capped (value 0 s.now) }
{
    let mut so_far = 0;
    for b in s {
        so_far = with_digit(so_far, *b).ok_or(Fault::Wrong)?;
    }
    if so_far < BEYOND {
        Ok(so_far)
    } else {
        Err(Fault::Beyond)
    }
}

// A number without a sign: 0 alone, or digits that do not start with 0.
#[tactic(auto, using(crate::proofs::ReadLaws::of_natural))]
pub fn natural(s: &[u8]) -> Result<u64, Fault>
    ensures { result ≡ natural_of s.now }
{
    match s {
        [b'0'] => Ok(0),
        [] | [b'0', ..] => Err(Fault::Wrong),
        _ => digits_of(s),
    }
}

// A value as a number with no sign.
#[tactic(auto, unfolding(meaning::specs::Number::capped))]
pub fn plain(n: u64) -> Result<i32, Fault>
    ensures { result ≡ with_no_sign (capped (Some n)) }
{
    if n < BEYOND {
        Ok(n as i32)
    } else {
        Err(Fault::Beyond)
    }
}

// Behind a minus: there is no minus zero.
#[tactic(auto, unfolding(meaning::specs::Number::capped))]
pub fn negative(n: u64) -> Result<i32, Fault>
    ensures { result ≡ minus (capped (Some n)) }
{
    if n == 0 {
        return Err(Fault::Wrong);
    }
    Ok(-plain(n)?)
}

// A field as a number.
#[tactic(auto, using(crate::proofs::ReadLaws::of_number))]
pub fn number(s: &[u8]) -> Result<i32, Fault>
    ensures { result ≡ number_of s.now }
{
    let [first, rest @ ..] = s else {
        return Err(Fault::Wrong);
    };
    if *first == b'-' {
        negative(natural(rest)?)
    } else {
        plain(natural(s)?)
    }
}
