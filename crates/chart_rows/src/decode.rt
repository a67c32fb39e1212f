// What the numbers of a row say, each turned into its declared type in one place (01, "Chart text"). A letter of the text
// stands as its own code. Every function equals the definition of the same name in the crate meaning, on every input.
ghost use Rattle.std.specs.Prelude.{◌≡◌};
ghost use Rattle.meaning.specs.Value.{is_letter, is_absent, one_of_letters, ref_or_none, kind_by, guard_by, target_by, owner_by, act_by};

use meaning::chart::{Act, Guard, Kind, Owner, Sign, Target};
use numbers::reference;

// "-" as a number of the value: no number that a text can state.
pub const ABSENT: i32 = -2147483648;

// Whether the number is this letter.
pub fn is_letter(letter: u8, z: i32) -> bool
    ensures { result ≡ is_letter letter z }
{
    z == i32::from(letter)
}

// Whether the number stands for "-".
pub fn is_absent(z: i32) -> bool
    ensures { result ≡ is_absent z }
{
    z == ABSENT
}

// Is the number one of these letters?
pub fn one_of_letters(letters: &[u8], z: i32) -> bool
    ensures { result ≡ one_of_letters letters.now z }
{
    letters.iter().any(|letter| is_letter(*letter, z))
}

// A reference, 0 where it is absent.
pub fn ref_or_none(z: i32) -> usize
    ensures { result ≡ ref_or_none z }
{
    if is_absent(z) { 0 } else { reference(z) }
}

// o, a, b
pub fn kind_by(z: i32) -> Kind
    ensures { result ≡ kind_by z }
{
    match u8::try_from(z) {
        Ok(b'o') => Kind::O,
        Ok(b'a') => Kind::A,
        _ => Kind::B,
    }
}

// =, <, >, or "-"
pub fn guard_by(v: i32, g: i32, x: i32) -> Guard
    ensures { result ≡ guard_by v g x }
{
    match u8::try_from(g) {
        Ok(b'=') => Guard::Compares(reference(v), Sign::Equal, x),
        Ok(b'<') => Guard::Compares(reference(v), Sign::Less, x),
        Ok(b'>') => Guard::Compares(reference(v), Sign::More, x),
        _ => Guard::Always,
    }
}

// 0 and a state, h and a state, or "-"
pub fn target_by(h: i32, s: i32) -> Target
    ensures { result ≡ target_by h s }
{
    if is_letter(b'h', h) {
        Target::History(reference(s))
    } else if is_absent(h) {
        Target::InPlace
    } else {
        Target::To(reference(s))
    }
}

// e, x, d, t
pub fn owner_by(k: i32, n: i32) -> Owner
    ensures { result ≡ owner_by k n }
{
    let n = reference(n);
    match u8::try_from(k) {
        Ok(b'e') => Owner::EntryOf(n),
        Ok(b'x') => Owner::ExitOf(n),
        Ok(b'd') => Owner::DefaultOf(n),
        _ => Owner::TransitionOf(n),
    }
}

// s, a, k, q, o
pub fn act_by(a: i32, x: i32, y: i32) -> Act
    ensures { result ≡ act_by a x y }
{
    match u8::try_from(a) {
        Ok(b's') => Act::SetTo(reference(x), y),
        Ok(b'a') => Act::AddTo(reference(x), y),
        Ok(b'k') => Act::TakeTo(reference(x)),
        Ok(b'q') => Act::Send(reference(x), y),
        _ => Act::Tell(x),
    }
}
