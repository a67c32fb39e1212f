// "The reader walks the text line by line" (01): a struct of the text and a position in it. It is opened once; `walk` holds it, and moves
// its position on from line to line. What is done with one line is in scan.rt, over plain slices and numbers.
#![tactic(auto)]

pub mod order;
pub mod read;
pub mod scan;

ghost use Rattle.std.specs.Prelude.{◌≡◌, length};
ghost use Rattle.meaning.specs.Split.{lines};
ghost use Rattle.meaning.specs.Text.{walk as walk_of, no_rows};
ghost use Rattle.reader.specs.Heard.{Heard};
ghost use Rattle.reader.specs.Scanned.{zeros, Scanned};

use fields::{LF, stop};
use meaning::Answer;
use scan::{begin, line_at};
use std::ops::ControlFlow;

#[derive(Drop)]
pub struct Reader<'a> {
    pub text: &'a [u8],
    pub at: usize,
}

// Where the line ends that starts at a position, if what is left has an LF.
#[tactic(auto, using(crate::proofs::HeardLaws::heard_none))]
pub fn next_line(s: &[u8], at: usize) -> Option<usize>
    ensures { Heard s.now at result }
{
    if s.len() < at {
        return None;
    }
    let k = stop(&s[at..], LF)?;
    Some(at + k)
}

// At the start of the text.
pub fn open<'a>(text: &'a [u8]) -> Reader<'a>
    ensures { (result.text ≡ text.entry) × (result.at ≡ 0) }
{
    Reader { text, at: 0 }
}

// Line by line, from numbers that are all 0. Where the answer is not 0, or there are too few for a value, what stands in them
// afterwards is of no use.
pub fn walk(text: &[u8], chart: &mut [i32]) -> Answer
    requires { chart.old ≡ zeros (length chart.old) }
    ensures { Scanned (walk_of 1 no_rows (lines text.now)) result (length chart.old) chart.new }
{
    let mut reader = open(text);
    let mut so_far = begin();
    // The walk that 01 names: it counts nothing, and each line says whether another follows.
    loop {
        match line_at(reader.text, reader.at, so_far, chart) {
            ControlFlow::Continue(next) => so_far = next,
            ControlFlow::Break(answer) => return answer,
        }
        reader.at = so_far.at;
    }
}
