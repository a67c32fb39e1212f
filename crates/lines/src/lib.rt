// One line of the text (01, "Chart text"), read by the form of its record in the table of forms: what is wrong with it, or nothing, and
// then the row that the line states, stored at its place in the chart's numbers.
#![tactic(auto)]

pub mod marks;

ghost use Rattle.std.specs.Prelude.{◌≡◌, [], ◌+◌, ◌*◌, ◌-◌, ◌≤◌};
ghost use Rattle.numbers.specs.Reference.{NOWHERE as nowhere};
ghost use Rattle.meaning.specs.Split.{fields};
ghost use Rattle.meaning.specs.Line.{line as a_line, mark_of, beside, room, rest_of, read_by};
ghost use Rattle.forms.specs.Table.{ENTRIES as entries, form_at};
ghost use Rattle.lines.specs.Took.{Taken, Took};

use fields::cells::{read_field, stated};
use fields::{TAB, cut_at};
use forms::{ENTRIES, Entry, entry_at};
use marks::{put_said, room};
use meaning::Fault;

// The fields of a part, of record n, by the form at entry i of the table. The place stands beside the numbers, and not in a sub-slice from it
// on: too few numbers may be lent, so it may lie past their end, which no sub-slice can say.
pub fn line_by(s: &[u8], i: usize, n: usize, chart: &mut [i32], at: usize) -> Result<(), Fault>
    requires { at + 2 * (entries - i) ≤ nowhere }
    ensures { Taken (read_by (form_at i) n (fields s.now)) at chart.old (mark_of result) chart.new }
{
    if ENTRIES <= i {
        return Err(Fault::Wrong);
    }
    match entry_at(i) {
        Entry::Or(between) => {
            let first = line_by(s, i + 1, n, chart, at);
            if first != Err(Fault::Wrong) {
                return first;
            }
            line_by(s, i + 1 + between, n, chart, at)
        }
        Entry::Last(field) => {
            let part = cut_at(s, TAB);
            if part.rest.is_some() {
                return Err(Fault::Wrong);
            }
            let said = read_field(part.first, field, n)?;
            put_said(chart, at, said);
            Ok(())
        }
        Entry::More(field) => {
            let part = cut_at(s, TAB);
            let Some(rest) = part.rest else {
                return Err(Fault::Wrong);
            };
            match read_field(part.first, field, n) {
                Ok(said) => {
                    line_by(rest, i + 1, n, chart, at + stated(said))?;
                    put_said(chart, at, said);
                    Ok(())
                }
                // "1 before 2 on one line"
                Err(fault) => match fault {
                    Fault::Wrong => Err(fault),
                    Fault::Beyond => {
                        line_by(rest, i + 1, n, chart, at)?;
                        Err(fault)
                    }
                },
            }
        }
    }
}

// Record n of at most so many, whose form behind its letter stands at an entry.
pub fn line(
    s: &[u8],
    entry: usize,
    n: usize,
    most: usize,
    chart: &mut [i32],
    at: usize,
) -> Result<(), Fault>
    requires { at + 2 * entries ≤ nowhere }
    ensures { Took
        (beside (a_line (room n most) []) (read_by (form_at entry) n (rest_of (fields s.now))))
        at chart.old (mark_of result) chart.new }
{
    let Some(rest) = cut_at(s, TAB).rest else {
        return Err(Fault::Wrong);
    };
    line_by(rest, entry, n, chart, at)?;
    room(n, most)
}
