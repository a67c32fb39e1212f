// Lines and fields of the text (01, "Chart text"): where a part ends, where a field stands, how many fields a line has. Each function
// takes a part of the text by itself, and walks it at most once for each field before the one it asks for.
#![tactic(auto)]

pub mod cells;

ghost use Rattle.std.specs.Prelude.{◌≡◌, ◌==◌, position};
ghost use Rattle.meaning.specs.Split.{split, fields};
ghost use Rattle.meaning.specs.Line.{letter_of, field as field_of};
ghost use Rattle.fields.specs.Parts.{cut_of};

pub use meaning::bytes::{LF, TAB};

// The place of the first separator, if there is one. Called where a text is cut into lines, and not written out there: in a large function the
// loop keeps several counts for one, and every byte of a text goes through it.
#[inline(never)]
pub fn stop(s: &[u8], sep: u8) -> Option<usize>
    ensures { result ≡ position (λ b. b == sep) s.now }
{
    s.iter().position(|b| *b == sep)
}

// What stands before the first separator, and what stands behind it, if there is one.
#[derive(Clone, Copy)]
pub struct Cut<'a> {
    pub first: &'a [u8],
    pub rest: Option<&'a [u8]>,
}

// A part cut at its first separator.
#[tactic(auto, using(crate::proofs::SplitLaws::of_cut))]
pub fn cut_at(s: &[u8], sep: u8) -> Cut<'_>
    ensures { split sep s.now ≡ cut_of sep result.first.now result.rest }
{
    match stop(s, sep) {
        Some(e) => Cut {
            first: &s[..e],
            rest: Some(&s[e + 1..]),
        },
        None => Cut {
            first: s,
            rest: None,
        },
    }
}

// Field k of a line; an empty part where there is none.
#[tactic(auto, using(crate::proofs::SplitLaws::of_field))]
pub fn field(s: &[u8], k: usize) -> &[u8]
    ensures { result.now ≡ field_of (fields s.now) k }
{
    let Cut { first, rest } = cut_at(s, TAB);
    if k == 0 {
        return first;
    }
    let Some(rest) = rest else {
        return &[];
    };
    field(rest, k - 1)
}

// The letter that is the whole of a part, else 0: a number and no Option, since the definition (`letter_of`) and the forms' letters are numbers.
pub fn whole(s: &[u8]) -> u8
    ensures { result ≡ letter_of s.now }
{
    let [only] = s else {
        return 0;
    };
    *only
}

// The letter that is the whole of field k, else 0.
pub fn letter_at(s: &[u8], k: usize) -> u8
    ensures { result ≡ letter_of (field_of (fields s.now) k) }
{
    whole(field(s, k))
}
