// Writing into a lent slice of bytes: one byte, a number without a sign, a number. A pen is the slice and the next place in it; where the
// slice has no room left the place lies one past its length from then on, and nothing more is written. So each contract is one equation
// with no condition, and a caller tells once, at the end, whether all of it had room.
#![tactic(auto)]

ghost use Rattle.std.specs.Prelude.{◌≡◌, nat_abs};
ghost use Rattle.meaning.specs.Number.{digits, numeral};
ghost use Rattle.pen.specs.Pen.{pen, held, put_byte, put_all};

// A lent slice, and the place of its next byte.
#[derive(Drop)]
pub struct Pen<'a> {
    pub out: &'a mut [u8],
    pub at: usize,
}

impl<'a> Pen<'a> {
    // One byte.
    pub fn put(&mut self, b: u8)
        ensures same_reference { self.new.out.ghost_name ≡ self.old.out.ghost_name }
        ensures written { held self.new ≡ put_byte b (held self.old) }
    {
        if self.at < self.out.len() {
            self.out[self.at] = b;
            self.at += 1;
        } else {
            self.at = self.out.len() + 1;
        }
    }

    // A number without a sign, highest digit first.
    pub fn put_digits(&mut self, n: usize)
        ensures same_reference { self.new.out.ghost_name ≡ self.old.out.ghost_name }
        ensures written { held self.new ≡ put_all (digits n) (held self.old) }
    {
        if n < 10 {
            self.put(b'0' + n as u8);
        } else {
            self.put_digits(n / 10);
            self.put(b'0' + (n % 10) as u8);
        }
    }

    // A number.
    pub fn put_numeral(&mut self, v: i32)
        ensures same_reference { self.new.out.ghost_name ≡ self.old.out.ghost_name }
        ensures written { held self.new ≡ put_all (numeral v) (held self.old) }
    {
        let n = v.unsigned_abs() as usize;
        if v < 0 {
            self.put(b'-');
            self.put_digits(n);
        } else {
            self.put_digits(n);
        }
    }
}

// The same at a place of a slice, for a caller that keeps the place itself: each gives the place after what it put.
pub fn put(out: &mut [u8], at: usize, b: u8) -> usize
    ensures { pen out.new result ≡ put_byte b (pen out.old at) }
{
    let mut pen = Pen { out, at };
    pen.put(b);
    pen.at
}

pub fn put_digits(out: &mut [u8], at: usize, n: usize) -> usize
    ensures { pen out.new result ≡ put_all (digits n) (pen out.old at) }
{
    let mut pen = Pen { out, at };
    pen.put_digits(n);
    pen.at
}

pub fn put_numeral(out: &mut [u8], at: usize, v: i32) -> usize
    ensures { pen out.new result ≡ put_all (numeral v) (pen out.old at) }
{
    let mut pen = Pen { out, at };
    pen.put_numeral(v);
    pen.at
}
