// Plans (01, "The plan"): a chart compiled, and numbers examined as a plan. No function here asks anything of what it is lent.
ghost use Rattle.meaning.specs.Answers.{answer_by};
ghost use Rattle.promises.specs.Promises.{Compiles, Examined};

use meaning::answers::Refusal;
use meaning::plan::Compiled;

// Compiles a chart into lent numbers: 3 where it fails a rule, 4 where the plan is longer. A refusal leaves all of the numbers 0.
pub fn compile(chart: &[i32], plan: &mut [i32]) -> Compiled
    ensures { Compiles chart.now plan.old result plan.new }
{
    compiler::compile(chart, plan)
}

// 0 where the numbers begin with a well-formed plan, else 5.
pub fn examine(plan: &[i32]) -> Result<(), Refusal>
    ensures { Examined plan.now (answer_by result) }
{
    examiner::examine(plan)
}
