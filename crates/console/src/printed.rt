// What is printed of a call (01: "R, answer, entry count, then the entries, one a line, single spaces"), written into a lent slice.
ghost use Rattle.std.specs.Prelude.{◌≡◌, ◌+◌, ◌*◌, ◌≤◌, length, take};
ghost use Rattle.pen.specs.Pen.{pen, held, put_all};
ghost use Rattle.meaning.specs.Widget.{ENTRY as Entry};
ghost use Rattle.meaning.specs.Program.{entry_lines, report as printed};
ghost use Rattle.console.specs.Shown.{entry_line, shown, LINE as Line, largest};

use fields::LF;
use pen::Pen;
use sizes::ENTRY;

// Room that is enough for the head of a report, and for the line of an entry.
pub const HEAD: usize = 48;

pub const LINE: usize = 36;

const R: u8 = b'R';

const SPACE: u8 = b' ';

// One entry, one line.
fn put_entry(pen: &mut Pen, first: i32, second: i32, third: i32)
    ensures same_reference { pen.new.out.ghost_name ≡ pen.old.out.ghost_name }
    ensures written { held pen.new ≡ put_all (entry_line first second third) (held pen.old) }
    ensures room { pen.old.at + Line ≤ length pen.old.out.now → pen.new.at ≤ pen.old.at + Line }
{
    pen.put_numeral(first);
    pen.put(SPACE);
    pen.put_numeral(second);
    pen.put(SPACE);
    pen.put_numeral(third);
    pen.put(LF);
}

// The first n entries.
fn put_entries(pen: &mut Pen, trace: &[i32], n: usize)
    requires { Entry * n ≤ length trace.now }
    ensures same_reference { pen.new.out.ghost_name ≡ pen.old.out.ghost_name }
    ensures written { held pen.new
        ≡ put_all (entry_lines (take (Entry * n) trace.now)) (held pen.old) }
    ensures room { pen.old.at + Line * n ≤ length pen.old.out.now
        → pen.new.at ≤ pen.old.at + Line * n }
{
    for k in 0..n {
        let i = ENTRY * k;
        put_entry(pen, trace[i], trace[i + 1], trace[i + 2]);
    }
}

// The report of an answer and of the first entries of a trace; of a trace too short for so many, those that it holds. Where the slice
// has room for the largest report of such a trace, all of the report is in it.
pub fn report(out: &mut [u8], at: usize, number: usize, trace: &[i32], entries: usize) -> usize
    ensures { (pen out.new result
        ≡ put_all (printed number (shown entries trace.now)) (pen out.old at))
        × (at + largest trace.now ≤ length out.old → result ≤ at + largest trace.now) }
{
    let n = entries.min(trace.len() / ENTRY);
    let mut pen = Pen { out, at };
    pen.put(R);
    pen.put(SPACE);
    pen.put_digits(number);
    pen.put(SPACE);
    pen.put_digits(n);
    pen.put(LF);
    put_entries(&mut pen, trace, n);
    pen.at
}
