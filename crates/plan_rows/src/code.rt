// The codes of the instructions (01, "The plan"): an instruction's first number, 1 to 11.
ghost use Rattle.std.specs.Prelude.{◌≡◌, pos};
ghost use Rattle.plan_rows.specs.Codes.{code_number, code_of, Says};

// What an instruction does, by the number that stands for it in a plan.
#[derive(Clone, Copy, PartialEq, Eq)]
pub enum Code {
    In = 1,
    Out = 2,
    SkipOut = 3,
    SkipEmpty = 4,
    SkipFull = 5,
    SkipNot = 6,
    Set = 7,
    Add = 8,
    Take = 9,
    Send = 10,
    Tell = 11,
}

impl Code {
    // "codes are 1 to 11": no other number is one.
    pub fn of(n: usize) -> Option<Code>
        ensures { result ≡ code_of n }
    {
        match n {
            1 => Some(Code::In),
            2 => Some(Code::Out),
            3 => Some(Code::SkipOut),
            4 => Some(Code::SkipEmpty),
            5 => Some(Code::SkipFull),
            6 => Some(Code::SkipNot),
            7 => Some(Code::Set),
            8 => Some(Code::Add),
            9 => Some(Code::Take),
            10 => Some(Code::Send),
            11 => Some(Code::Tell),
            _ => None,
        }
    }

    // The number that stands in a plan.
    pub fn number(self) -> i32
        ensures { result ≡ pos (code_number self) }
    {
        self as i32
    }
}

// The same in a plan that was examined, where each number is a code: what is none of the others is TELL, so that nothing is tested twice.
#[inline]
pub fn code_by(code: usize) -> Code
    ensures { Says result code }
{
    match code {
        1 => Code::In,
        2 => Code::Out,
        3 => Code::SkipOut,
        4 => Code::SkipEmpty,
        5 => Code::SkipFull,
        6 => Code::SkipNot,
        7 => Code::Set,
        8 => Code::Add,
        9 => Code::Take,
        10 => Code::Send,
        _ => Code::Tell,
    }
}
