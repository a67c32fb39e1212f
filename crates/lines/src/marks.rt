// Room for a record, and the numbers of a field put into the chart's.
ghost use Rattle.std.specs.Prelude.{◌≡◌, ◌+◌, ◌<◌, ◌^◌, set};
ghost use Rattle.std.proofs.lemmas.List.Edits.{sets};
ghost use Rattle.meaning.specs.Line.{mark_of, room};
ghost use Rattle.fields.specs.Said.{row_of};

use fields::cells::Said;
use meaning::Fault;

// Room for a record of number n among at most so many.
#[tactic(auto, unfolding(meaning::specs::Line::room))]
pub fn room(n: usize, most: usize) -> Result<(), Fault>
    ensures { mark_of result ≡ room n most }
{
    if n < most { Ok(()) } else { Err(Fault::Beyond) }
}

// A number at a place; past the numbers that are lent nothing is put.
fn put(chart: &mut [i32], at: usize, z: i32)
    ensures { chart.new ≡ set chart.old at z }
{
    if at < chart.len() {
        chart[at] = z;
    }
}

// The numbers that a field states.
pub fn put_said(chart: &mut [i32], at: usize, r: Said)
    requires { at + 1 < 2 ^ 64 }
    ensures { chart.new ≡ sets chart.old at (row_of r) }
{
    match r {
        Said::Nothing => {}
        Said::One(value) => put(chart, at, value),
        Said::Two(lead, value) => {
            put(chart, at, lead);
            put(chart, at + 1, value);
        }
    }
}
