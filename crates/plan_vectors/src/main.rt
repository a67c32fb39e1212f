// Plans run and compared (01, "The plan"): the arguments name files of data/. NAME.plan is a plan, one number a line: the program
// prints its name and the answer that its examination gives. NAME.txt is a chart, and NAME.num, the next argument, the plan that
// it must give: the program prints the name; answer and count of compiling it; `same` or `differs`, number by number; and the
// answer with one number less lent than the plan has. A file that cannot be opened prints a dash. The file `stdout` has what must
// be printed: the table of damaged plans in its order, plans at the edge of each rule, then charts, K of 01 among them.
#![tactic(auto)]

mod charts;
mod number_lines;

ghost use Rattle.std.specs.Prelude.{◌≤◌};

use charts::run_chart;
use engine::plans::examine;
use files::{ARGUMENT, BUFFER, argument, file_bytes};
use meaning::Answer;
use number_lines::read_numbers;
use std::env::Env;
use std::io;
use std::rt::Files;

// Room for the numbers of a plan.
const ROOM: usize = 16384;

// How many bytes of a file's name are the plan's name: all but `.plan`.
fn stem(named: usize) -> usize
    ensures { result ≤ named }
{
    if named < 5 { named } else { named - 5 }
}

pub fn print(rt: &impl Print, word: &[u8]) -> io::Result<()> {
    rt.write_all(word)
}

// The answer for the plan that a text states.
fn report(rt: &impl Print, text: &[u8]) -> io::Result<()> {
    let mut plan = [0i32; ROOM];
    let n = read_numbers(text, &mut plan);
    let number = Answer::from(examine(&plan[..n])).number;
    print!(rt; "\t{number}\n")
}

// One plan, by its file's name.
fn run_plan(rt: &(impl Files + Print), path: &[u8]) -> io::Result<()> {
    let n = stem(path.len());
    print(rt, &path[..n])?;
    let mut buf = [0u8; BUFFER];
    match file_bytes(rt, path, &mut buf)? {
        Some(got) => report(rt, &buf[..got]),
        None => print(rt, b"\t-\n"),
    }
}

// The plan or the chart that an argument names, by the last letter of its file: .plan, .txt; .num belongs to the chart before it. Whether
// there is such an argument.
fn run_argument(rt: &(impl Env + Files + Print), i: usize) -> io::Result<bool> {
    let mut path = [0u8; ARGUMENT];
    let Some(n) = argument(rt, i, &mut path) else {
        return Ok(false);
    };
    let path = &path[..n];
    match path.last() {
        Some(b'm') => {}
        Some(b't') => {
            if i < ROOM {
                run_chart(rt, path, i + 1)?;
            }
        }
        _ => run_plan(rt, path)?,
    }
    Ok(true)
}

fn main(rt: HostRuntime) -> io::Result<()> {
    for i in 1..usize::MAX {
        if !run_argument(&rt, i)? {
            break;
        }
    }
    Ok(())
}
