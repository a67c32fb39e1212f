// The grammar of chart text (meaning, specs/Grammar.antt) as one table, which the reader and the writer walk.
#![tactic(auto)]

ghost use Rattle.std.specs.Prelude.{◌≡◌, ◌<◌, ◌≤◌, get_or};
ghost use Rattle.meaning.specs.Grammar.{width, form};
ghost use Rattle.chart_rows.specs.Kinds.{as_record};
ghost use Rattle.forms.specs.Table.{ENTRIES as entries, letters_of, field_of, field_by, coded, entries_of, no_entry, form_at};

use Entry::{Last, More, Or};
use Field::{Dash, EventCount, InPlace, Letter, Number, TargetHistory, TargetState, Turn};
use Letters::{AOrB, Ko, O, Owner, Saq, Sign};
use chart_rows::kinds::Record;

// The letters that a field of one letter may have.
#[derive(Clone, Copy)]
pub enum Letters {
    O,
    AOrB,
    Sign,
    Owner,
    Saq,
    Ko,
}

impl Letters {
    pub fn bytes(self) -> &'static [u8]
        ensures { result.now ≡ letters_of self }
    {
        match self {
            O => b"o",
            AOrB => b"ab",
            Sign => b"=<>",
            Owner => b"exdt",
            Saq => b"saq",
            Ko => b"ko",
        }
    }
}

// A field of a line: the record's number, a number, the count of events, "-", a letter, or one of the three targets.
#[derive(Clone, Copy)]
pub enum Field {
    Turn,
    Number,
    EventCount,
    Dash,
    Letter(Letters),
    TargetState,
    TargetHistory,
    InPlace,
}

impl Field {
    // The field of a code, as the table had it in bytes.
    pub fn of(code: u8) -> Option<Field>
        ensures { coded result ≡ field_by code }
    {
        match code {
            b'n' => Some(Turn),
            b'#' => Some(Number),
            b'-' => Some(Dash),
            b's' => Some(TargetState),
            b'h' => Some(TargetHistory),
            b'_' => Some(InPlace),
            b'c' => Some(EventCount),
            b'o' => Some(Letter(O)),
            b'b' => Some(Letter(AOrB)),
            b'=' => Some(Letter(Sign)),
            b'w' => Some(Letter(Owner)),
            b'q' => Some(Letter(Saq)),
            b'k' => Some(Letter(Ko)),
            _ => None,
        }
    }

    // How many numbers of its row it takes.
    pub fn width(self) -> usize
        ensures { (result ≡ width (field_of self)) × (result ≤ 2) }
    {
        match self {
            Turn => 0,
            TargetState | TargetHistory | InPlace => 2,
            _ => 1,
        }
    }
}

// A field that ends its form; one with more behind it, from the next entry on; or a choice: of the form at the next entry, or of the one
// so many entries behind that.
#[derive(Clone, Copy)]
pub enum Entry {
    Last(Field),
    More(Field),
    Or(usize),
}

// How many entries there are.
pub const ENTRIES: usize = 48;

// Where the form of each record begins: of state 0 and of the others, V, E, T and A.
pub const ROOT: usize = 0;

pub const OTHER_STATE: usize = 7;

pub const VARIABLE: usize = 14;

pub const EVENTS: usize = 18;

pub const TRANSITION: usize = 19;

pub const ACTION: usize = 39;

static TABLE: [Entry; ENTRIES] = [
    // S of state 0
    More(Turn),
    More(Dash),
    Or(2),
    More(Letter(O)),
    Last(Number),
    More(Letter(AOrB)),
    Last(Dash),
    // S of another state
    More(Turn),
    More(Number),
    Or(2),
    More(Letter(O)),
    Last(Number),
    More(Letter(AOrB)),
    Last(Dash),
    // V
    More(Turn),
    More(Number),
    More(Number),
    Last(Number),
    // E
    Last(EventCount),
    // T
    More(Turn),
    More(Number),
    More(Number),
    Or(8),
    More(Dash),
    More(Dash),
    More(Dash),
    Or(1),
    Last(InPlace),
    Or(1),
    Last(TargetHistory),
    Last(TargetState),
    More(Number),
    More(Letter(Sign)),
    More(Number),
    Or(1),
    Last(InPlace),
    Or(1),
    Last(TargetHistory), // behind a guard
    Last(TargetState),
    // A
    More(Letter(Owner)),
    More(Number),
    Or(3),
    More(Letter(Saq)),
    More(Number),
    Last(Number),
    More(Letter(Ko)),
    More(Number),
    Last(Dash),
];

// Entry i of the table.
pub fn entry_at(i: usize) -> Entry
    requires { i < entries }
    ensures { result ≡ get_or entries_of i no_entry }
{
    TABLE[i]
}

// Where the form of record n of a kind begins.
pub fn begins(kind: Record, n: usize) -> usize
    ensures { (form_at result ≡ form (as_record kind) n) × (result ≤ entries) }
{
    match kind {
        Record::State => { if n == 0 { ROOT } else { OTHER_STATE } }
        Record::Variable => VARIABLE,
        Record::Events => EVENTS,
        Record::Transition => TRANSITION,
        Record::Action => ACTION,
    }
}
