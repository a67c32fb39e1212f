// Files that the programs read: the text of chart.txt, and what an argument names; and what the programs lend.
#![tactic(auto)]

ghost use Rattle.std.specs.Prelude.{◌≡◌, length, IfOk, OnErr, IfSome};
ghost use Rattle.std.specs.Counts.{IsPrefixLen};

use sizes::TEXT;
use std::env::{Env, FillError};
use std::io::Read;
use std::rt::Files;
use std::{fs, io};

// The bytes lent for a text: one more than a text may have, so that a longer one is not cut to one that is accepted.
pub const LENT: usize = TEXT + 1;

// The numbers lent for a plan: room for every plan of a chart of 01's sizes (docs/PLAN.md). A longer one is refused with 4 and never cut:
// for larger charts this cannot grow with the sizes, since a program has its plan on the stack.
pub const PLAN: usize = 462390;

// The bytes lent for a part of the input, for what is collected before it is written, and for a file of numbers.
pub const BUFFER: usize = 65536;

// The bytes lent for an argument: any path that can be opened has fewer.
pub const ARGUMENT: usize = 4096;

// Reads until the buffer is full or the input ends: how many bytes now stand at the buffer's start.
pub fn read_full(input: &mut impl Read, buffer: &mut [u8]) -> io::Result<usize>
    ensures ok { IfOk result (λ n. IsPrefixLen n buffer.new) }
    ensures err { OnErr result (length buffer.new ≡ length buffer.old) }
{
    let mut done = 0;
    // No count: each reading says how many bytes came.
    while done < buffer.len() {
        let n = input.read(&mut buffer[done..])?;
        if n == 0 {
            break;
        }
        done += n;
    }
    Ok(done)
}

// A file's bytes, as many as the buffer holds: how many, and none where it cannot be opened. A path is UTF-8: one of other bytes names no
// file that can be opened.
pub fn file_bytes(rt: &impl Files, path: &[u8], buffer: &mut [u8]) -> io::Result<Option<usize>>
    ensures ok { IfOk result (λ found. IfSome found (λ n. IsPrefixLen n buffer.new)) }
    ensures err { OnErr result (length buffer.new ≡ length buffer.old) }
{
    let Ok(name) = str::from_utf8(path) else {
        return Ok(None);
    };
    let Ok(mut file) = fs::open(rt, name) else {
        return Ok(None);
    };
    let n = read_full(&mut file, buffer)?;
    Ok(Some(n))
}

// The chart's text, and its length: 0 where the file is missing.
pub fn chart_text(rt: &impl Files, buffer: &mut [u8]) -> io::Result<usize>
    ensures ok { IfOk result (λ n. IsPrefixLen n buffer.new) }
    ensures err { OnErr result (length buffer.new ≡ length buffer.old) }
{
    let found = file_bytes(rt, b"chart.txt", buffer)?;
    Ok(found.unwrap_or(0))
}

// An argument's bytes: how many, 0 where the buffer cannot hold them all, and none where there is no such argument.
pub fn argument(rt: &impl Env, i: usize, buffer: &mut [u8]) -> Option<usize>
    ensures { IfSome result (λ n. IsPrefixLen n buffer.new) }
{
    match rt.arg(i, buffer) {
        Ok(n) => Some(n),
        Err(FillError::TooLong) => Some(0),
        Err(FillError::NotPresent) => None,
    }
}
