// A text's rows read into lent numbers (01, "Chart text", "Answer numbers"): any text, any number of lent numbers. A refused read
// leaves all of them 0.
ghost use Rattle.std.specs.Prelude.{◌≡◌, length};
ghost use Rattle.meaning.specs.Text.{read_text};
ghost use Rattle.reader.specs.RowsRead.{RowsRead};

use crate::walk;
use chart_rows::layout::VALUE;
use meaning::Answer;
use meaning::answers::{OUTSIDE_SIZE, RULE_FAILS};
use sizes::TEXT;

// The answers 1 and 2 with their line, and 3 with place 0 for numbers too few; the rules are tried by the caller.
pub fn read_rows(text: &[u8], chart: &mut [i32]) -> Answer
    ensures { RowsRead (read_text text.now) (length chart.old) result chart.new }
{
    chart.fill(0);
    if TEXT < text.len() {
        return Answer {
            number: OUTSIDE_SIZE,
            place: 0,
        };
    }
    let r = walk(text, chart);
    if r.number != 0 {
        chart.fill(0);
        return r;
    }
    if chart.len() < VALUE {
        chart.fill(0);
        return Answer {
            number: RULE_FAILS,
            place: 0,
        };
    }
    r
}
