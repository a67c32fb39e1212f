// The instructions of a plan, block by block: whether the numbers of an instruction fit, by its code.
ghost use Rattle.std.specs.Prelude.{◌≡◌, true, ◌&&◌, ◌||◌, ◌+◌, ◌*◌, ◌≤◌, length, drop, negsuc};
ghost use Rattle.sizes.specs.Sizes.{INSTRUCTIONS};
ghost use Rattle.numbers.specs.Equal.{eq_z};
ghost use Rattle.meaning.specs.Value.{count_fits};
ghost use Rattle.meaning.specs.WellFormed.{INSTR_ROW, one_of, instr_fits, left_after_each, left_in_blocks};
ghost use Rattle.meaning.specs.WellFormed.{code_at, code_fits, all_blocks_fill};
ghost use Rattle.plan_rows.specs.Rows.{Sized};
ghost use Rattle.examiner.specs.Examined.{Whole};

use super::fits::{count_fits, one_of};
use meaning::plan::Counts;
use numbers::in_range;
use plan_rows::code::Code;
use plan_rows::layout::{CODE, FIRST, HEAD_ROW, INSTR_ROW, SECOND, THIRD};
use plan_rows::{block_length, code_at, heads_at, named, read};

// "p may be -1".
fn parent_fits(k: Counts, z: i32) -> bool
    ensures { result ≡ eq_z z (negsuc 0) || one_of k.states z }
{
    z == -1 || one_of(k.states, z)
}

// A skip stays within its block, of which so many instructions follow.
fn skip_fits(left: usize, z: i32) -> bool
    requires { left ≤ INSTRUCTIONS }
    ensures { result ≡ count_fits 0 left z }
{
    count_fits(0, left, z)
}

// The three numbers of an instruction all fit.
fn all_three(first: bool, second: bool, third: bool) -> bool
    ensures { result ≡ first && (second && third) }
{
    first && second && third
}

// The instruction whose row begins at this place, by its code: what is named exists, constants are in range, unused numbers
// are 0.
fn instr_fits(plan: &[i32], k: Counts, left: usize, at: usize) -> bool
    requires { Sized k × (left ≤ INSTRUCTIONS) × (at + INSTR_ROW ≤ length plan.now) }
    ensures { result ≡ instr_fits k left (drop at plan.now) }
{
    let Some(code) = Code::of(named(plan, at + CODE)) else {
        return false;
    };
    let x = read(plan, at + FIRST);
    let y = read(plan, at + SECOND);
    let z = read(plan, at + THIRD);
    match code {
        Code::In => all_three(one_of(k.states, x), y == 0, z == 0),
        Code::Out => all_three(one_of(k.states, x), parent_fits(k, y), z == 0),
        Code::SkipOut => all_three(one_of(k.states, x), skip_fits(left, y), z == 0),
        Code::SkipEmpty => all_three(one_of(k.states, x), skip_fits(left, y), z == 0),
        Code::SkipFull => all_three(one_of(k.states, x), skip_fits(left, y), z == 0),
        Code::SkipNot => { all_three(one_of(k.states, x), one_of(k.states, y), skip_fits(left, z)) }
        Code::Set => all_three(one_of(k.vars, x), in_range(y), z == 0),
        Code::Add => all_three(one_of(k.vars, x), in_range(y), z == 0),
        Code::Take => all_three(one_of(k.vars, x), y == 0, z == 0),
        Code::Send => all_three(count_fits(1, k.events, x), in_range(y), z == 0),
        Code::Tell => all_three(in_range(x), y == 0, z == 0),
    }
}

// A block of n instructions that begins at this place.
fn block_fits(plan: &[i32], k: Counts, base: usize, n: usize) -> bool
    requires { Sized k × (n ≤ INSTRUCTIONS) × (base + n * INSTR_ROW ≤ length plan.now) }
    ensures { result ≡ code_fits k (left_after_each n) (drop base plan.now) }
{
    (0..n).all(|i| instr_fits(plan, k, n - 1 - i, base + i * INSTR_ROW))
}

// All blocks, once it is known that they fill the instructions: the start block, then those of the heads. Before each, so
// many instructions are done.
pub fn code_fits(plan: &[i32], k: Counts) -> bool
    requires { Whole plan.now k × (all_blocks_fill plan.now k ≡ true) }
    ensures { result ≡ code_fits k (left_in_blocks plan.now k) (drop (code_at k) plan.now) }
{
    let base = code_at(k);
    if !block_fits(plan, k, base, k.start) {
        return false;
    }
    let heads = heads_at(k);
    let mut done = k.start;
    for h in 0..k.heads {
        let n = block_length(plan, heads + h * HEAD_ROW);
        if !block_fits(plan, k, base + done * INSTR_ROW, n) {
            return false;
        }
        done += n;
    }
    true
}
