// A chart compiled, and its plan held to the numbers that it must give.
ghost use Rattle.std.specs.Prelude.{◌≡◌, ◌≤◌, length, IfOk, OnErr};
ghost use Rattle.std.specs.Counts.{IsPrefixLen};

use super::number_lines::read_numbers;
use super::print;
use engine::VALUE;
use engine::plans::compile;
use files::{ARGUMENT, BUFFER, LENT, argument, file_bytes};
use std::env::Env;
use std::io;
use std::rt::Files;

// Room for the numbers of a plan of these charts.
const ROOM: usize = 16384;

// A file's bytes, by its name: how many, 0 where it cannot be opened.
fn load(rt: &impl Files, path: &[u8], buffer: &mut [u8]) -> io::Result<usize>
    ensures ok { IfOk result (λ n. IsPrefixLen n buffer.new) }
    ensures err { OnErr result (length buffer.new ≡ length buffer.old) }
{
    let found = file_bytes(rt, path, buffer)?;
    Ok(found.unwrap_or(0))
}

// The first n numbers of the two are the same, and there are no more in the second.
fn same(plan: &[i32], n: usize, wanted: &[i32]) -> bool {
    plan.get(..n) == Some(wanted)
}

// The answer with one number less lent than the plan has.
fn print_short(rt: &impl Print, chart: &[i32], n: usize) -> io::Result<()> {
    let mut plan = [0i32; ROOM];
    if n == 0 || ROOM < n {
        return Ok(());
    }
    let number = compile(chart, &mut plan[..n - 1]).answer.number;
    print!(rt; "\t{number}")
}

// Answer and count of compiling the chart that a text states, and whether the plan is the one wanted.
fn report(rt: &impl Print, text: &[u8], wanted: &[i32]) -> io::Result<()> {
    let mut chart = [0i32; VALUE];
    let read = engine::read(text, &mut chart);
    if read.number != 0 {
        return print(rt, b"\trefused\n");
    }
    let mut plan = [0i32; ROOM];
    let compiled = compile(&chart, &mut plan);
    let number = compiled.answer.number;
    let n = compiled.length;
    print!(rt; "\t{number}\t{n}")?;
    if same(&plan, n, wanted) {
        print(rt, b"\tsame")?;
    } else {
        print(rt, b"\tdiffers")?;
    }
    print_short(rt, &chart, n)?;
    print(rt, b"\n")
}

// The plan that the argument's file states, one number a line.
fn wanted_by(rt: &(impl Env + Files), place: usize, wanted: &mut [i32]) -> io::Result<usize>
    ensures ok { IfOk result (λ n. n ≤ length wanted.new) }
    ensures err { OnErr result (length wanted.new ≡ length wanted.old) }
{
    let mut name = [0u8; ARGUMENT];
    let named = argument(rt, place, &mut name).unwrap_or(0);
    let mut lines = [0u8; BUFFER];
    let bytes = load(rt, &name[..named], &mut lines)?;
    Ok(read_numbers(&lines[..bytes], wanted))
}

// One chart, by its file's name; the argument at the place names the file of its plan.
pub fn run_chart(rt: &(impl Env + Files + Print), path: &[u8], place: usize) -> io::Result<()> {
    let mut text = [0u8; LENT];
    let got = load(rt, path, &mut text)?;
    let mut wanted = [0i32; ROOM];
    let n = wanted_by(rt, place, &mut wanted)?;
    print(rt, path)?;
    report(rt, &text[..got], &wanted[..n])
}
