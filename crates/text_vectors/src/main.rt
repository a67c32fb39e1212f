// Chart texts run and compared (01, "Chart text"): the arguments name files of data/, one text each. For each the program prints the
// text's name, the answer and the place that reading it gives, and whether an accepted text is written back byte for byte: `same`,
// `differs`, or `-` for a refused one. A file that cannot be opened prints three dashes. The file `stdout` has what must be printed:
// the table of vectors in its order, then texts that it lacks: 65 states, 128 transitions, 257 actions, and 01's chart K.
#![tactic(auto)]

ghost use Rattle.std.specs.Prelude.{◌≤◌};

use engine::{Answer, VALUE};
use files::{ARGUMENT, LENT, argument, file_bytes};
use std::env::Env;
use std::io;
use std::rt::Files;

// How many bytes of a file's name are the text's name: all but `.txt`.
fn stem(named: usize) -> usize
    ensures { result ≤ named }
{
    if named < 4 { named } else { named - 4 }
}

fn print(rt: &impl Print, word: &[u8]) -> io::Result<()> {
    rt.write_all(word)
}

// The chart that was read, written as text, is the text that it was read from.
fn written_back(text: &[u8], chart: &[i32]) -> bool {
    let mut buf = [0u8; LENT];
    let written = engine::write(chart, &mut buf);
    written.answer.number == 0 && buf.get(..written.length) == Some(text)
}

// Answer, place, and whether the text came back.
fn report(rt: &impl Print, text: &[u8]) -> io::Result<()> {
    let mut chart = [0i32; VALUE];
    let Answer { number, place } = engine::read(text, &mut chart);
    print!(rt; "\t{number}\t{place}")?;
    if number != 0 {
        return print(rt, b"\t-\n");
    }
    if written_back(text, &chart) {
        print(rt, b"\tsame\n")
    } else {
        print(rt, b"\tdiffers\n")
    }
}

// One text, by its file's name.
fn run(rt: &(impl Files + Print), path: &[u8]) -> io::Result<()> {
    let n = stem(path.len());
    print(rt, &path[..n])?;
    let mut buf = [0u8; LENT];
    match file_bytes(rt, path, &mut buf)? {
        Some(got) => report(rt, &buf[..got]),
        None => print(rt, b"\t-\t-\t-\n"),
    }
}

// The text that an argument names; whether there is such an argument.
fn run_argument(rt: &(impl Env + Files + Print), i: usize) -> io::Result<bool> {
    let mut path = [0u8; ARGUMENT];
    let Some(n) = argument(rt, i, &mut path) else {
        return Ok(false);
    };
    run(rt, &path[..n])?;
    Ok(true)
}

fn main(rt: HostRuntime) -> io::Result<()> {
    for i in 1..usize::MAX {
        if !run_argument(&rt, i)? {
            break;
        }
    }
    Ok(())
}
