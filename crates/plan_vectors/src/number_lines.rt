// Numbers of a text, one a line: an optional minus and digits. A number past the ends of an i32 is read as that end.
ghost use Rattle.std.specs.Prelude.{◌≡◌, ◌≤◌, length};

// A number of 32 bits without its sign is at most this.
const MOST: i64 = 2147483648;

// The digits before the first other byte, as a number held at MOST.
fn size_of(digits: &[u8]) -> i64 {
    let mut size: i64 = 0;
    for digit in digits {
        size = size
            .saturating_mul(10)
            .saturating_add(i64::from(digit.wrapping_sub(b'0')))
            .min(MOST);
    }
    size
}

// The number that a text begins with, 0 where it begins with none; and what follows the byte that ends it.
fn number_before(text: &[u8]) -> (i32, &[u8]) {
    let (minus, rest) = match text {
        [b'-', rest @ ..] => (true, rest),
        _ => (false, text),
    };
    let end = rest
        .iter()
        .position(|b| !b.is_ascii_digit())
        .unwrap_or(rest.len());
    let size = size_of(&rest[..end]);
    let value = if minus { size.saturating_neg() } else { size };
    let following = rest.get(end + 1..).unwrap_or(&[]);
    (i32::try_from(value).unwrap_or(i32::MAX), following)
}

// The numbers of the text into the lent slice; how many.
pub fn read_numbers(text: &[u8], into: &mut [i32]) -> usize
    ensures { (result ≤ length into.new) × (length into.new ≡ length into.old) }
{
    let mut rest = text;
    for (i, to) in into.iter_mut().enumerate() {
        if rest.is_empty() {
            return i;
        }
        let (number, following) = number_before(rest);
        *to = number;
        rest = following;
    }
    into.len()
}
