// The kinds of record (01, "Chart text"): the letter that names each, and where its count and its rows stand in a value.
ghost use Rattle.std.specs.Prelude.{◌≡◌, ◌≤◌};
ghost use Rattle.meaning.specs.Grammar.{name, most, record_by};
ghost use Rattle.meaning.specs.Value.{how_many};
ghost use Rattle.chart_rows.specs.Kinds.{as_record, named};
ghost use Rattle.chart_rows.specs.Area.{AreaOf};

use super::count_at;
use super::layout::{
    ACT_ROW, ACTION_COUNT, ACTIONS_AT, EVENT_COUNT, STATE_COUNT, STATE_ROW, STATES_AT, TRANS_ROW,
    TRANSITION_COUNT, TRANSITIONS_AT, VALUE, VAR_COUNT, VAR_ROW, VARS_AT,
};
use sizes::{ACTIONS, STATES, TRANSITIONS, VARIABLES};

// S, V, E, T, A
#[derive(Clone, Copy, PartialEq, Eq)]
pub enum Record {
    State,
    Variable,
    Events,
    Transition,
    Action,
}

// All of them, in the order in which they stand in a text.
pub const RECORDS: [Record; 5] = [
    Record::State,
    Record::Variable,
    Record::Events,
    Record::Transition,
    Record::Action,
];

impl Record {
    // The kind that a letter names.
    pub fn of(letter: u8) -> Option<Record>
        ensures { named result ≡ record_by letter }
    {
        match letter {
            b'S' => Some(Record::State),
            b'V' => Some(Record::Variable),
            b'E' => Some(Record::Events),
            b'T' => Some(Record::Transition),
            b'A' => Some(Record::Action),
            _ => None,
        }
    }

    // The letter that names it.
    pub fn letter(self) -> u8
        ensures { result ≡ name (as_record self) }
    {
        match self {
            Record::State => b'S',
            Record::Variable => b'V',
            Record::Events => b'E',
            Record::Transition => b'T',
            Record::Action => b'A',
        }
    }

    // Its part of a value. E has no count.
    pub fn area(self) -> Area
        ensures { AreaOf (as_record self) result }
    {
        match self {
            Record::State => Area::of(STATES, STATE_COUNT, STATES_AT, STATE_ROW),
            Record::Variable => Area::of(VARIABLES, VAR_COUNT, VARS_AT, VAR_ROW),
            Record::Events => Area::of(1, VALUE, EVENT_COUNT, 1),
            Record::Transition => Area::of(
                TRANSITIONS,
                TRANSITION_COUNT,
                TRANSITIONS_AT,
                TRANS_ROW,
            ),
            Record::Action => Area::of(ACTIONS, ACTION_COUNT, ACTIONS_AT, ACT_ROW),
        }
    }

    // How many rows of it a value has.
    pub fn how_many(self, chart: &[i32]) -> usize
        ensures { (result ≡ how_many chart.now (as_record self)) × (result ≤ most (as_record self)) }
    {
        match self {
            Record::Events => 1,
            _ => {
                let area = self.area();
                count_at(chart, area.count, area.most)
            }
        }
    }
}

// The part of the kind that a letter names; of no kind there are none.
pub fn kind(letter: u8) -> Area
    ensures { AreaOf (record_by letter) result }
{
    match Record::of(letter) {
        Some(named) => named.area(),
        None => Area::of(0, VALUE, VALUE, 1),
    }
}

// How many rows of it a value has.
pub fn how_many(chart: &[i32], letter: u8) -> usize
    ensures { (result ≡ how_many chart.now (record_by letter)) × (result ≤ most (record_by letter)) }
{
    match Record::of(letter) {
        Some(named) => named.how_many(chart),
        None => 0,
    }
}

// Of a kind: how many there may be, where the count and where the rows stand, and how many numbers a row has.
#[derive(Clone, Copy)]
pub struct Area {
    pub most: usize,
    pub count: usize,
    pub place: usize,
    pub size: usize,
}

impl Area {
    fn of(most: usize, count: usize, place: usize, size: usize) -> Area
        ensures { result ≡ record { most = most; count = count; place = place; size = size } }
    {
        Area {
            most,
            count,
            place,
            size,
        }
    }
}
