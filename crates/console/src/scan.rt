// The input line under way (01: "lines of event, tab, argument"), by value: each byte is fed to it once, and at the line's end it says
// what the line is. A number of any length is held at one past the range, so that no number of digits overflows.
ghost use Rattle.std.specs.Prelude.{◌≡◌, ◌≤◌, length};
ghost use Rattle.meaning.specs.Program.{input_by};
ghost use Rattle.console.specs.Scan.{digits_fed, digits_number, posted, empty, began, fed, line_at};
ghost use Rattle.console.specs.Stretch.{Collects};

use fields::{LF, TAB};
use meaning::{Fault, Input};
use numerals::{negative, plain, with_digit};
use queue::Item;
use sizes::MOST;

// "a number past ±1,000,000,000 is posted as 1,000,000,001"
const POSTED: i32 = MOST + 1;

// A field under way: nothing yet, a minus alone, 0 alone, digits of a value, digits behind a minus, or what can be no number.
#[derive(Clone, Copy)]
pub enum Digits {
    Start,
    Minus,
    Zero,
    Plain(u64),
    Negative(u64),
    Broken,
}

// A line under way: in its event, in its argument, or past two fields.
#[derive(Clone, Copy)]
pub enum Scan {
    Event(Digits),
    Argument(Digits, Digits),
    More,
}

// A line under way after the bytes of a part up to a place.
#[derive(Drop)]
pub struct Collected {
    pub upto: usize,
    pub scan: Scan,
}

impl Digits {
    // The field after one byte more: "no leading zero, plus or minus zero".
    #[tactic(auto, unfolding(crate::specs::Scan::digits_fed))]
    fn feed(self, b: u8) -> Digits
        ensures { result ≡ digits_fed self b }
    {
        match self {
            Digits::Start if b == b'-' => Digits::Minus,
            Digits::Start if b == b'0' => Digits::Zero,
            Digits::Start => with_digit(0, b).map_or(Digits::Broken, Digits::Plain),
            Digits::Minus if b == b'0' => Digits::Broken,
            Digits::Minus => with_digit(0, b).map_or(Digits::Broken, Digits::Negative),
            Digits::Plain(v) => with_digit(v, b).map_or(Digits::Broken, Digits::Plain),
            Digits::Negative(v) => with_digit(v, b).map_or(Digits::Broken, Digits::Negative),
            Digits::Zero | Digits::Broken => Digits::Broken,
        }
    }

    // The number that the field is, if it ends here.
    #[tactic(auto, unfolding(crate::specs::Scan::digits_number, meaning::specs::Number::capped))]
    fn number(self) -> Result<i32, Fault>
        ensures { result ≡ digits_number self }
    {
        match self {
            Digits::Zero => Ok(0),
            Digits::Plain(v) => plain(v),
            Digits::Negative(v) => negative(v),
            Digits::Start | Digits::Minus | Digits::Broken => Err(Fault::Wrong),
        }
    }
}

impl Scan {
    // A line before its first byte.
    #[tactic(auto, unfolding(crate::specs::Scan::empty))]
    pub fn empty() -> Scan
        ensures { result ≡ empty }
    {
        Scan::Event(Digits::Start)
    }

    // Whether any byte was fed: after the last LF there is no further line.
    #[tactic(auto, unfolding(crate::specs::Scan::began))]
    pub fn began(self) -> bool
        ensures { result ≡ began self }
    {
        !matches!(self, Scan::Event(Digits::Start))
    }

    // The line after one byte more, which is no LF: a tab ends a field.
    #[tactic(auto, unfolding(crate::specs::Scan::fed))]
    pub fn feed(self, b: u8) -> Scan
        ensures { result ≡ fed self b }
    {
        match self {
            Scan::Event(p) if b == TAB => Scan::Argument(p, Digits::Start),
            Scan::Event(p) => Scan::Event(p.feed(b)),
            Scan::Argument(_, _) if b == TAB => Scan::More,
            Scan::Argument(e, p) => Scan::Argument(e, p.feed(b)),
            Scan::More => Scan::More,
        }
    }

    // The line, if it ends here.
    #[tactic(auto, unfolding(crate::specs::Scan::line_at))]
    pub fn line(self) -> Input
        ensures { result ≡ line_at self }
    {
        match self {
            Scan::Argument(e, a) => posts(e.number(), a.number()),
            Scan::Event(_) | Scan::More => None,
        }
    }
}

// What is posted for a number.
fn posted(number: Result<i32, Fault>) -> Option<i32>
    ensures { result ≡ posted number }
{
    match number {
        Ok(n) => Some(n),
        Err(Fault::Beyond) => Some(POSTED),
        Err(Fault::Wrong) => None,
    }
}

// An event with its argument, where both are numbers.
#[tactic(auto, unfolding(meaning::specs::Program::input_by))]
fn posts(event: Result<i32, Fault>, argument: Result<i32, Fault>) -> Input
    ensures { result ≡ input_by event argument }
{
    let event = posted(event)?;
    let arg = posted(argument)?;
    Some(Item { event, arg })
}

// The line after what a part of the input has of it from a place on: up to its LF, or to the part's end. A sub-slice in place of the place
// would be no plainer: the walk over a part goes on from the place that is found, and would have to add the two up each time.
pub fn collect(part: &[u8], from: usize, scan: Scan) -> Collected
    requires { from ≤ length part.now }
    ensures { Collects part.now from scan result }
{
    let mut line = scan;
    for i in from..part.len() {
        if part[i] == LF {
            return Collected {
                upto: i,
                scan: line,
            };
        }
        line = line.feed(part[i]);
    }
    Collected {
        upto: part.len(),
        scan: line,
    }
}
