// One line of a text (01, "Chart text"): it is read into the chart's numbers, and the first faulty one is told. Here are plain slices and
// numbers; the reader's struct, which walks over the lines, is in lib.rt.
ghost use Rattle.std.specs.Prelude.{◌≡◌, length};
ghost use Rattle.std.specs.declared.ops.ControlFlow.TheVariants.{Break};
ghost use Rattle.meaning.specs.Line.{faulty as fault_of};
ghost use Rattle.reader.specs.Onward.{Walking, Onward, begun};

use crate::next_line;
use crate::order::{Turns, counted, line, put_counts};
use fields::letter_at;
use meaning::answers::{OUTSIDE_SIZE, WRONG_LINE};
use meaning::{Answer, Fault};
use std::ops::ControlFlow;

// How far the reading has come: where the next line starts, its number, and what was counted.
#[derive(Drop)]
pub struct Progress {
    pub at: usize,
    pub line: usize,
    pub turns: Turns,
}

// Before the first line.
pub fn begin() -> Progress
    ensures { result ≡ begun }
{
    Progress {
        at: 0,
        line: 1,
        turns: Turns {
            states: 0,
            vars: 0,
            events: 0,
            transitions: 0,
            actions: 0,
        },
    }
}

// No line is to be read any more.
fn over(number: usize, place: usize) -> ControlFlow<Answer, Progress>
    ensures { result ≡ Break (record { number = number; place = place }) }
{
    ControlFlow::Break(Answer { number, place })
}

// What is wrong with a line, at its number.
fn faulty(fault: Fault, line: usize) -> ControlFlow<Answer, Progress>
    ensures { result ≡ Break (record { number = (fault_of fault).mark; place = line }) }
{
    match fault {
        Fault::Wrong => over(WRONG_LINE, line),
        Fault::Beyond => over(OUTSIDE_SIZE, line),
    }
}

// The line that starts at a place is read; behind the last LF the reading is over.
pub fn line_at(
    text: &[u8],
    at: usize,
    p: Progress,
    chart: &mut [i32],
) -> ControlFlow<Answer, Progress>
    requires { Walking text.now (length chart.old) chart.old at p.line p.turns }
    ensures { Onward text.now (length chart.old) chart.new at result }
{
    let n = p.line;
    let turns = p.turns;
    let Some(e) = next_line(text, at) else {
        if at < text.len() || turns.events < 1 {
            return over(WRONG_LINE, n);
        }
        put_counts(chart, turns);
        return over(0, 0);
    };
    let s = &text[at..e];
    let letter = letter_at(s, 0);
    match line(s, letter, turns, chart) {
        Err(fault) => faulty(fault, n),
        Ok(()) => ControlFlow::Continue(Progress {
            at: e + 1,
            line: n + 1,
            turns: counted(letter, turns),
        }),
    }
}
