// Words, numbers and lines of a case's files. Every function takes any bytes and any place; the files are written in one form, so no
// form is refused here: what was read wrongly shows in what is printed.
ghost use Rattle.std.specs.Prelude.{◌<◌, ◌≤◌, length};
ghost use Rattle.std.specs.Counts.{IsPrefixLen};

use console::LF;

const MINUS: u8 = 45;

const ZERO: u8 = 48;

const NINE: u8 = 57;

// A number of 32 bits without its sign is at most this.
const MOST: u64 = 2147483648;

// A number under way: whether it has begun and ended, its sign, its digits so far, held at MOST.
#[derive(Drop)]
pub struct Numeral {
    pub begun: bool,
    pub ended: bool,
    pub minus: bool,
    pub size: u64,
}

// A number, and the place behind it.
#[derive(Drop)]
pub struct Found {
    pub value: i32,
    pub to: usize,
}

// The byte at a place, 0 past the end.
pub fn byte_at(text: &[u8], at: usize) -> u8 {
    if at < text.len() { text[at] } else { 0 }
}

// A place, or the end of the bytes where it lies past it.
pub fn within(at: usize, bytes: &[u8]) -> usize
    ensures { IsPrefixLen result bytes.now }
{
    let n = bytes.len();
    if at < n { at } else { n }
}

// A word written behind a place: the place behind it.
pub fn joined(out: &mut [u8], at: usize, word: &[u8]) -> usize {
    let mut to = at;
    let mut i: usize = 0;
    while i < word.len() {
        to = console::put(out, to, word[i]);
        i += 1;
    }
    to
}

// The size with one digit more.
fn with_digit(size: u64, b: u8) -> u64 {
    if b < ZERO {
        return size;
    }
    if NINE < b {
        return size;
    }
    if MOST / 10 < size {
        return MOST;
    }
    let more = size * 10 + ((b - ZERO) as u64);
    if more < MOST { more } else { MOST }
}

fn is_digit(b: u8) -> bool {
    if b < ZERO {
        return false;
    }
    b <= NINE
}

// A number after one byte more: what is neither minus nor digit ends it, once it has begun.
fn fed(n: Numeral, b: u8) -> Numeral {
    if b == MINUS {
        return Numeral {
            begun: true,
            ended: false,
            minus: true,
            size: 0,
        };
    }
    if is_digit(b) {
        return Numeral {
            begun: true,
            ended: false,
            minus: n.minus,
            size: with_digit(n.size, b),
        };
    }
    Numeral {
        begun: n.begun,
        ended: n.begun,
        minus: n.minus,
        size: n.size,
    }
}

// A size with its sign.
fn signed(minus: bool, size: u64) -> i32 {
    if MOST <= size {
        return if minus { -2147483648 } else { 2147483647 };
    }
    let n = size as i32;
    if minus { 0 - n } else { n }
}

// The first number from a place on.
pub fn number_from(text: &[u8], from: usize) -> Found {
    let mut n = Numeral {
        begun: false,
        ended: false,
        minus: false,
        size: 0,
    };
    let mut i = from;
    while i < text.len() {
        n = fed(n, text[i]);
        i += 1;
        if n.ended {
            break;
        }
    }
    Found {
        value: signed(n.minus, n.size),
        to: i,
    }
}

// The place behind the line's end.
pub fn line_after(text: &[u8], at: usize) -> usize
    ensures { at < length text.now → at < result }
{
    let mut i = at;
    while i < text.len() {
        let b = text[i];
        i += 1;
        if b == LF {
            break;
        }
    }
    i
}
