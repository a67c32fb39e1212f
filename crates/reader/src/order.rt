// The order S, V, one E, T, A (01, "Chart text"): a line is read as the record that its first letter names, if that stands in its
// place, and counted after it.
ghost use Rattle.std.specs.Prelude.{◌≡◌, ◌<◌, set, pos};
ghost use Rattle.numbers.specs.Reference.{NOWHERE};
ghost use Rattle.meaning.specs.Split.{fields};
ghost use Rattle.meaning.specs.Grammar.{record_by};
ghost use Rattle.meaning.specs.Line.{line_of, in_order, mark_of};
ghost use Rattle.chart_rows.specs.Kinds.{as_record};
ghost use Rattle.lines.specs.Took.{Took};
ghost use Rattle.reader.specs.Order.{turn_of, place_of, turns_after, Within, with_counts};

use chart_rows::kinds::Record;
use chart_rows::layout::{ACTION_COUNT, STATE_COUNT, TRANSITION_COUNT, VAR_COUNT};
use forms::begins;
use meaning::Fault;
use numbers::number;

// How many records of each kind were read.
#[derive(Clone, Copy)]
pub struct Turns {
    pub states: usize,
    pub vars: usize,
    pub events: usize,
    pub transitions: usize,
    pub actions: usize,
}

impl Turns {
    // How many of a kind were read.
    fn of(self, kind: Record) -> usize
        ensures { result ≡ turn_of self (as_record kind) }
    {
        match kind {
            Record::State => self.states,
            Record::Variable => self.vars,
            Record::Events => self.events,
            Record::Transition => self.transitions,
            Record::Action => self.actions,
        }
    }

    // One more of it.
    pub fn more(self, kind: Record) -> Turns
        requires { Within self }
        ensures { result ≡ turns_after (as_record kind) self }
    {
        let mut next = self;
        match kind {
            Record::State => next.states += 1,
            Record::Variable => next.vars += 1,
            Record::Events => next.events += 1,
            Record::Transition => next.transitions += 1,
            Record::Action => next.actions += 1,
        }
        next
    }
}

// None of a later kind was read; one E was, where E stands before the kind, else none.
fn placed(kind: Record, t: Turns) -> bool
    requires { Within t }
    ensures { result ≡ in_order (turn_of t) (as_record kind) }
{
    match kind {
        Record::State => t.vars + t.events + t.transitions + t.actions == 0,
        Record::Variable => t.events + t.transitions + t.actions == 0,
        Record::Events => t.events + t.transitions + t.actions == 0,
        Record::Transition => t.actions + 1 == t.events,
        Record::Action => t.events == 1,
    }
}

// A line whose first field names a kind.
pub fn line_of_kind(s: &[u8], kind: Record, t: Turns, chart: &mut [i32]) -> Result<(), Fault>
    requires { Within t }
    ensures { Took (line_of (as_record kind) (turn_of t) (fields s.now)) (place_of (as_record kind) t)
        chart.old (mark_of result) chart.new }
{
    if !placed(kind, t) {
        return Err(Fault::Wrong);
    }
    let n = t.of(kind);
    let area = kind.area();
    let at = area.place + n * area.size;
    lines::line(s, begins(kind, n), n, area.most, chart, at)
}

// A line whose first field is a letter; one that names no kind is wrong.
pub fn line(s: &[u8], letter: u8, t: Turns, chart: &mut [i32]) -> Result<(), Fault>
    requires { Within t }
    ensures { Took (line_of (record_by letter) (turn_of t) (fields s.now)) (place_of (record_by letter) t)
        chart.old (mark_of result) chart.new }
{
    let Some(kind) = Record::of(letter) else {
        return Err(Fault::Wrong);
    };
    line_of_kind(s, kind, t, chart)
}

// What was read with a line of the letter.
pub fn counted(letter: u8, t: Turns) -> Turns
    requires { Within t }
    ensures { result ≡ turns_after (record_by letter) t }
{
    match Record::of(letter) {
        Some(kind) => t.more(kind),
        None => t,
    }
}

// One count, at its place.
fn put_count(chart: &mut [i32], at: usize, n: usize)
    requires { n < NOWHERE }
    ensures { chart.new ≡ set chart.old at (pos n) }
{
    if chart.len() <= at {
        return;
    }
    let z = number(n);
    chart[at] = z;
}

// The counts, at their places.
pub fn put_counts(chart: &mut [i32], t: Turns)
    requires { Within t }
    ensures { chart.new ≡ with_counts t chart.old }
{
    put_count(chart, STATE_COUNT, t.states);
    put_count(chart, VAR_COUNT, t.vars);
    put_count(chart, TRANSITION_COUNT, t.transitions);
    put_count(chart, ACTION_COUNT, t.actions);
}
