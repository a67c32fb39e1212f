// One field of a line read (01, "Chart text"): the numbers that it states, or what is wrong with it.
ghost use Rattle.std.specs.Prelude.{◌≡◌, [], ◌∷◌, ◌≤◌, length, pos};
ghost use Rattle.meaning.specs.Grammar.{target_history};
ghost use Rattle.meaning.specs.Lists.{has};
ghost use Rattle.meaning.specs.Line.{is_turn, number_line, count_line, right_if, read_field};
ghost use Rattle.forms.specs.Table.{field_of, field_by};
ghost use Rattle.fields.specs.Said.{said, row_of};

use crate::whole;
use chart_rows::decode::ABSENT;
use forms::Field;
use meaning::Fault;
use numerals::number;
use sizes::EVENTS;

// The numbers that a field states: none, one, or a letter or 0 and a number behind it.
#[derive(Clone, Copy)]
pub enum Said {
    Nothing,
    One(i32),
    Two(i32, i32),
}

// How many numbers are stated.
pub fn stated(r: Said) -> usize
    ensures { (result ≡ length (row_of r)) × (result ≤ 2) }
{
    match r {
        Said::Nothing => 0,
        Said::One(_) => 1,
        Said::Two(_, _) => 2,
    }
}

// These numbers, where the field is right.
fn right_if(right: bool, r: Said) -> Result<Said, Fault>
    ensures { said result ≡ right_if right (row_of r) }
{
    if right { Ok(r) } else { Err(Fault::Wrong) }
}

// A number alone.
fn number_said(v: Result<i32, Fault>) -> Result<Said, Fault>
    ensures { said result ≡ number_line [] v }
{
    Ok(Said::One(v?))
}

// A number behind a letter.
fn target_said(letter: u8, v: Result<i32, Fault>) -> Result<Said, Fault>
    ensures { said result ≡ number_line (pos letter ∷ []) v }
{
    Ok(Said::Two(i32::from(letter), v?))
}

// A number from one end to another.
fn count_said(v: Result<i32, Fault>, low: usize, high: usize) -> Result<Said, Fault>
    ensures { said result ≡ count_line low high v }
{
    let z = v?;
    if 0 <= z && low <= z as usize && z as usize <= high {
        Ok(Said::One(z))
    } else {
        Err(Fault::Beyond)
    }
}

// Whether a number is the one in turn.
fn is_turn(n: Result<i32, Fault>, turn: usize) -> bool
    ensures { result ≡ is_turn n turn }
{
    match n {
        Ok(z) => 0 <= z && z as usize == turn,
        Err(_) => false,
    }
}

// Whether a letter is one of these.
fn among(letter: u8, letters: &[u8]) -> bool
    ensures { result ≡ has letter letters.now }
{
    letters.contains(&letter)
}

// One of these letters.
fn letter_said(letter: u8, letters: &[u8]) -> Result<Said, Fault>
    ensures { said result ≡ right_if (has letter letters.now) (pos letter ∷ []) }
{
    right_if(among(letter, letters), Said::One(i32::from(letter)))
}

// h and a number.
#[tactic(auto, using(crate::proofs::CellLaws::of_history))]
fn history_said(s: &[u8]) -> Result<Said, Fault>
    ensures { said result ≡ read_field target_history 0 s.now }
{
    let [first, rest @ ..] = s else {
        return Err(Fault::Wrong);
    };
    if *first == b'h' {
        target_said(b'h', number(rest))
    } else {
        Err(Fault::Wrong)
    }
}

// A field of record n.
#[tactic(auto, unfolding(meaning::specs::Line::read_field, forms::specs::Table::field_of, meaning::specs::Lists::has))]
pub fn read_field(s: &[u8], field: Field, n: usize) -> Result<Said, Fault>
    ensures { said result ≡ read_field (field_of field) n s.now }
{
    match field {
        Field::Turn => right_if(is_turn(number(s), n), Said::Nothing),
        Field::Number => number_said(number(s)),
        Field::EventCount => count_said(number(s), 0, EVENTS),
        Field::Dash => right_if(whole(s) == b'-', Said::One(ABSENT)),
        Field::Letter(letters) => letter_said(whole(s), letters.bytes()),
        Field::TargetState => target_said(0, number(s)),
        Field::TargetHistory => history_said(s),
        Field::InPlace => right_if(whole(s) == b'-', Said::Two(ABSENT, ABSENT)),
    }
}

// A field by its code; a code of none names no field that a line has.
pub fn read_by_code(s: &[u8], code: u8, n: usize) -> Result<Said, Fault>
    ensures { said result ≡ read_field (field_by code) n s.now }
{
    match Field::of(code) {
        Some(field) => read_field(s, field, n),
        None => Err(Fault::Wrong),
    }
}
