// The plan program (01, "The plan"), for whoever ships widgets: reads chart.txt, a missing one as empty, and writes its plan: one line for
// the six counts, one for each variable, head and instruction, numbers parted by single spaces; or `R`, answer and place where the text or
// the chart is refused. It decides nothing itself: what a text and a chart give is said by the engine. A read or a write that fails ends it
// with that error.
#![tactic(auto)]

use console::{LF, put, put_digits, put_numeral};
use engine::{Answer, VALUE};
use files::{BUFFER, LENT, PLAN, chart_text};
use numbers::reference;
use std::io;

// Room that is enough for one line: ten numbers of at most eleven bytes, each with what parts it from the next.
const LINE: usize = 120;

const HEADER: usize = 6;

const SPACE: u8 = b' ';

const R: u8 = b'R';

// The numbers behind the rows that were written, and the place behind what was collected.
#[derive(Drop)]
struct Rows<'a> {
    rest: &'a [i32],
    at: usize,
}

// Writes what was collected, up to the place.
fn print(rt: &impl Print, out: &[u8], at: usize) -> io::Result<()> {
    if at <= out.len() {
        rt.write_all(&out[..at])?;
    }
    Ok(())
}

// Room for one more line: what was collected is written where there is less.
fn with_room(rt: &impl Print, out: &[u8], at: usize) -> io::Result<usize> {
    if out.len() < LINE {
        return Ok(at);
    }
    if out.len() - LINE < at {
        print(rt, out, at)?;
        return Ok(0);
    }
    Ok(at)
}

// One row of a plan, one line.
fn put_row(row: &[i32], out: &mut [u8], at: usize) -> usize {
    let mut p = at;
    for (i, number) in row.iter().enumerate() {
        if i > 0 {
            p = put(out, p, SPACE);
        }
        p = put_numeral(out, p, *number);
    }
    put(out, p, LF)
}

// So many rows of one kind.
fn put_rows<'a>(
    rt: &impl Print,
    plan: &'a [i32],
    count: usize,
    width: usize,
    out: &mut [u8],
    at: usize,
) -> io::Result<Rows<'a>> {
    let mut rest = plan;
    let mut place = at;
    for _ in 0..count {
        let Some((row, following)) = rest.split_at_checked(width) else {
            break;
        };
        let p = with_room(rt, out, place)?;
        place = put_row(row, out, p);
        rest = following;
    }
    Ok(Rows { rest, at: place })
}

// The plan, row by row.
fn put_plan(rt: &impl Print, plan: &[i32], out: &mut [u8]) -> io::Result<usize> {
    let [_, vars, _, heads, instructions, _, ..] = plan else {
        return Ok(0);
    };
    let counts = put_rows(rt, plan, 1, HEADER, out, 0)?;
    let variables = put_rows(rt, counts.rest, reference(*vars), 3, out, counts.at)?;
    let chosen = put_rows(rt, variables.rest, reference(*heads), 10, out, variables.at)?;
    let code = put_rows(rt, chosen.rest, reference(*instructions), 4, out, chosen.at)?;
    Ok(code.at)
}

// R, answer, place.
fn put_refusal(answer: Answer, out: &mut [u8]) -> usize {
    let a = put(out, 0, R);
    let b = put(out, a, SPACE);
    let c = put_digits(out, b, answer.number);
    let d = put(out, c, SPACE);
    let e = put_digits(out, d, answer.place);
    put(out, e, LF)
}

fn main(rt: HostRuntime) -> io::Result<()> {
    let mut bytes = [0u8; LENT];
    let n = chart_text(&rt, &mut bytes)?;
    let mut chart = [0; VALUE];
    let mut out = [0u8; BUFFER];
    let read = engine::read(&bytes[..n], &mut chart);
    if read.number != 0 {
        let at = put_refusal(read, &mut out);
        return print(&rt, &out, at);
    }
    let mut plan = [0; PLAN];
    let compiled = engine::plans::compile(&chart, &mut plan);
    if compiled.answer.number != 0 {
        let at = put_refusal(compiled.answer, &mut out);
        return print(&rt, &out, at);
    }
    let at = put_plan(&rt, &plan, &mut out)?;
    print(&rt, &out, at)
}
