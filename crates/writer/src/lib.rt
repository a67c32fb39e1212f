// The writer (01, "Chart text"): the text of a chart that passes the rules, in a lent slice; 13 where it is too long for the slice.
#![tactic(auto)]

pub mod cells;
pub mod rows;

ghost use Rattle.std.specs.Prelude.{◌≡◌, length};
ghost use Rattle.std.proofs.Math.Option.{none};
ghost use Rattle.meaning.specs.Rules.{failing_rule_of};
ghost use Rattle.meaning.specs.Text.{write as written_out, written, lent_bytes};

use meaning::answers::TEXT_TOO_LONG;
use meaning::{Answer, Written};

// The text of a chart that passes the rules; 13 where it is longer than the slice.
pub fn write_passed(chart: &[i32], text: &mut [u8]) -> Written
    requires { failing_rule_of chart.now ≡ none }
    ensures { (result ≡ written chart.now (length text.old))
        × (text.new ≡ lent_bytes (length text.old) (written_out chart.now (length text.old))) }
{
    text.fill(0);
    let length = rows::put_chart(chart, text);
    if text.len() < length {
        text.fill(0);
        return Written {
            answer: Answer {
                number: TEXT_TOO_LONG,
                place: 0,
            },
            length: 0,
        };
    }
    Written {
        answer: Answer {
            number: 0,
            place: 0,
        },
        length,
    }
}
