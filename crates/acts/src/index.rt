// The index of a chart's actions (01, "An owner's actions run in line order"): how many rows there are from each owner's first one on, and
// for each row from the next one of the same owner on; 0 where there is none. Made once a call, it lets an owner's actions be found without
// a look at the others'.
ghost use Rattle.std.specs.Prelude.{◌≡◌, suc, ◌<◌, length, get_or};
ghost use Rattle.std.proofs.Props.{props};
ghost use Rattle.meaning.specs.Chart.{no_action};
ghost use Rattle.meaning.specs.Value.{chart_of};
ghost use Rattle.meaning.specs.Rules.{Ruled};
ghost use Rattle.acts.specs.Index.{key, Fits, row_from, Indexed, Prepared};

use chart_rows::decode::owner_by;
use chart_rows::layout::{ACT_ROW, ACTIONS_AT};
use chart_rows::{action_count, number_at};
use meaning::chart::Owner;
use sizes::{ACTIONS, STATES, TRANSITIONS};

// How many owners there can be: entry, exit and default of each state, and each transition.
pub const OWNERS: usize = 3 * STATES + TRANSITIONS;

// A number for each owner, then one for each row.
pub const INDEX: usize = OWNERS + ACTIONS;

// The owner's place in the index.
fn key_of(owner: Owner) -> usize
    requires { Fits owner }
    ensures { result ≡ key owner }
{
    match owner {
        Owner::EntryOf(s) => s,
        Owner::ExitOf(s) => STATES + s,
        Owner::DefaultOf(s) => 2 * STATES + s,
        Owner::TransitionOf(t) => 3 * STATES + t,
    }
}

// The owner of row i: the two numbers that name it, read where they stand.
#[tactic(auto, using(chart_rows::proofs::Rows::actions_most))]
fn owner_at(chart: &[i32], i: usize) -> Owner
    requires { i < length (chart_of chart.now).actions }
    ensures { result ≡ (get_or (chart_of chart.now).actions i no_action).owner }
{
    let at = ACTIONS_AT + i * ACT_ROW;
    owner_by(number_at(chart, at), number_at(chart, at + 1))
}

// From the last row up: the row's next one is its owner's first so far, and it becomes the first.
#[tactic(auto, using(chart_rows::proofs::Rows::actions_most))]
pub fn index_of(chart: &[i32]) -> [u16; INDEX]
    requires { Ruled chart.now }
    ensures { Indexed (chart_of chart.now) result }
{
    let n = action_count(chart);
    let mut index = [0u16; INDEX];
    for i in (0..n).rev() {
        let at = key_of(owner_at(chart, i));
        let first = index[at];
        index[OWNERS + i] = first;
        let rows = n - i;
        index[at] = rows as u16;
    }
    index
}

// A chart that passes the rules, with the index of its actions: what the functions that run a chart's actions take.
#[derive(Drop)]
pub struct Runnable<'a> {
    pub chart: &'a [i32],
    pub index: [u16; INDEX],
    pub ghost prepared: { Prepared chart.now index } by { Prim.hlevel props },
}

impl<'a> Runnable<'a> {
    // The chart with the index made for it.
    pub fn new(chart: &'a [i32]) -> Runnable<'a>
        requires { Ruled chart.now }
        ensures { result.chart.now ≡ chart.now }
    {
        Runnable {
            chart,
            index: index_of(chart),
        }
    }

    // The owner's first row; one past the rows where there is none.
    pub fn first_row(&self, owner: Owner) -> usize
        requires { Fits owner }
        ensures { result ≡ row_from (chart_of self.now.chart.now) owner 0 }
    {
        let rows = self.index[key_of(owner)] as usize;
        action_count(self.chart) - rows
    }

    // The next row of the same owner after row i.
    #[tactic(auto, using(chart_rows::proofs::Rows::actions_most))]
    pub fn next_row(&self, i: usize) -> usize
        requires { i < length (chart_of self.now.chart.now).actions }
        ensures { result ≡ row_from (chart_of self.now.chart.now)
            (get_or (chart_of self.now.chart.now).actions i no_action).owner (suc i) }
    {
        let rows = self.index[OWNERS + i] as usize;
        action_count(self.chart) - rows
    }
}
