// Instructions written into a lent slice (01, "The plan"). A place may lie past the end of the slice: nothing is stored there, and the
// place counts on. So each contract is one equation with no condition, the room is asked once, and a length is learnt by writing into
// a slice that has no room.
#![tactic(auto)]

pub mod actions;

ghost use Rattle.std.specs.Prelude.{◌≡◌, [], ◌∷◌, ◌<◌, ◌+◌, set, length, pos};
ghost use Rattle.numbers.specs.Reference.{NOWHERE};
ghost use Rattle.meaning.specs.declared.plan.Instr.TheVariants.{Out as go_out, Does as does};
ghost use Rattle.plan_rows.specs.Codes.{code_number};
ghost use Rattle.emitter.specs.Pen.{pen, puts, emits, SmallPlace, SmallAct, Small};

use meaning::chart::Act;
use meaning::plan::Instr;
use numbers::number;
use plan_rows::code::Code;

// How many numbers an instruction has.
pub const WIDTH: usize = 4;

// One number, where the slice has that place.
pub fn put(plan: &mut [i32], at: usize, z: i32)
    ensures { plan.new ≡ set plan.old at z }
{
    if at < plan.len() {
        plan[at] = z;
    }
}

// Numbers, one after another.
pub fn put_all(plan: &mut [i32], at: usize, numbers: &[i32]) -> usize
    requires { at + length numbers.now < NOWHERE }
    ensures { pen plan.new result ≡ puts numbers.now (pen plan.old at) }
{
    for i in 0..numbers.len() {
        put(plan, at + i, numbers[i]);
    }
    at + numbers.len()
}

// A code and its three numbers.
fn put_code(plan: &mut [i32], at: usize, code: Code, a: i32, b: i32, c: i32) -> usize
    requires { at + 4 < NOWHERE }
    ensures { pen plan.new result ≡ puts (pos (code_number code) ∷ a ∷ b ∷ c ∷ []) (pen plan.old at) }
{
    put_all(plan, at, &[code.number(), a, b, c])
}

// A code and three numbers that are not below 0.
fn put_plain(plan: &mut [i32], at: usize, code: Code, a: usize, b: usize, c: usize) -> usize
    requires { (a < NOWHERE) × (b < NOWHERE) × (c < NOWHERE) × (at + 4 < NOWHERE) }
    ensures { pen plan.new result ≡ puts (pos (code_number code) ∷ pos a ∷ pos b ∷ pos c ∷ []) (pen plan.old at) }
{
    put_code(plan, at, code, number(a), number(b), number(c))
}

// "2 OUT s p (p the o parent, or -1)"
fn put_out(plan: &mut [i32], at: usize, s: usize, p: Option<usize>) -> usize
    requires { (s < NOWHERE) × SmallPlace p × (at + 4 < NOWHERE) }
    ensures { pen plan.new result ≡ emits (go_out s p ∷ []) (pen plan.old at) }
{
    match p {
        None => put_code(plan, at, Code::Out, number(s), -1, 0),
        Some(q) => put_plain(plan, at, Code::Out, s, q, 0),
    }
}

// "7 SET, 8 ADD, 9 TAKE, 10 SEND, 11 TELL, each with its act's fields"
fn put_act(plan: &mut [i32], at: usize, act: Act) -> usize
    requires { SmallAct act × (at + 4 < NOWHERE) }
    ensures { pen plan.new result ≡ emits (does act ∷ []) (pen plan.old at) }
{
    match act {
        Act::SetTo(v, x) => put_code(plan, at, Code::Set, number(v), x, 0),
        Act::AddTo(v, x) => put_code(plan, at, Code::Add, number(v), x, 0),
        Act::TakeTo(v) => put_plain(plan, at, Code::Take, v, 0, 0),
        Act::Send(e, x) => put_code(plan, at, Code::Send, number(e), x, 0),
        Act::Tell(x) => put_code(plan, at, Code::Tell, x, 0, 0),
    }
}

// "1 IN s. 2 OUT s p. 3 SKIPOUT s n. 4 SKIPEMPTY s n. 5 SKIPFULL s n. 6 SKIPNOT s d n", and the acts.
pub fn put_instr(plan: &mut [i32], at: usize, instr: Instr) -> usize
    requires { Small instr × (at + 4 < NOWHERE) }
    ensures { pen plan.new result ≡ emits (instr ∷ []) (pen plan.old at) }
{
    match instr {
        Instr::In(s) => put_plain(plan, at, Code::In, s, 0, 0),
        Instr::Out(s, p) => put_out(plan, at, s, p),
        Instr::SkipOut(s, n) => put_plain(plan, at, Code::SkipOut, s, n, 0),
        Instr::SkipEmpty(s, n) => put_plain(plan, at, Code::SkipEmpty, s, n, 0),
        Instr::SkipFull(s, n) => put_plain(plan, at, Code::SkipFull, s, n, 0),
        Instr::SkipNot(s, d, n) => put_plain(plan, at, Code::SkipNot, s, d, n),
        Instr::Does(act) => put_act(plan, at, act),
    }
}
