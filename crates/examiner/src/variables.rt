// The variables of a plan: "each variable row keeps R5 and the number range".
ghost use Rattle.std.specs.Prelude.{◌≡◌, ◌+◌, ◌*◌, ◌≤◌, length};
ghost use Rattle.meaning.specs.Lists.{every};
ghost use Rattle.meaning.specs.Value.{VAR_ROW};
ghost use Rattle.meaning.specs.WellFormed.{SIX, var_keeps, var_rows};
ghost use Rattle.plan_rows.specs.Rows.{row};
ghost use Rattle.examiner.specs.Examined.{Whole};

use meaning::plan::Counts;
use numbers::{between, in_range};
use plan_rows::var_row;

// Does variable v's row keep R5 and the number range?
fn var_keeps(plan: &[i32], v: usize) -> bool
    requires { SIX + (v + 1) * VAR_ROW ≤ length plan.now }
    ensures { result ≡ var_keeps (row VAR_ROW SIX v plan.now) }
{
    let var = var_row(plan, v);
    between(var.low, var.first, var.high)
        && in_range(var.low)
        && in_range(var.high)
        && in_range(var.first)
}

pub fn vars_keep(plan: &[i32], k: Counts) -> bool
    requires { Whole plan.now k }
    ensures { result ≡ every var_keeps (var_rows plan.now k) }
{
    (0..k.vars).all(|v| var_keeps(plan, v))
}
