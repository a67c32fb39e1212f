// The examination of a plan (01, "A plan is well formed when"). Any numbers may be lent: nothing is trusted before it was
// tested, counts first, and numbers past the plan's end are ignored. Each function equals a definition of the crate meaning.
#![tactic(auto)]

mod fits;
mod heads;
mod instructions;
mod variables;

ghost use Rattle.std.specs.Prelude.{◌≡◌};
ghost use Rattle.meaning.specs.Answers.{answer_by};
ghost use Rattle.meaning.specs.WellFormed.{counts_keep, rows_well_formed, well_formed};
ghost use Rattle.examiner.specs.Examined.{examined, Whole};

use chart_rows::number_at;
use fits::count_fits;
use heads::{blocks_fill, heads_fit};
use instructions::code_fits;
use meaning::answers::Refusal;
use meaning::plan::Counts;
use plan_rows::layout::{EVENT_COUNT, HEAD_COUNT, INSTR_COUNT, STATE_COUNT, VAR_COUNT};
use plan_rows::{counts, plan_end};
use sizes::{EVENTS, INSTRUCTIONS, LEAST_STATES, STATES, TRANSITIONS, VARIABLES};
use variables::vars_keep;

// The counts keep their sizes. In brackets, as the definition has it: of five tests in a row the search finds no proof.
#[tactic(auto, unfolding(meaning::specs::WellFormed::counts_keep))]
fn counts_keep(plan: &[i32]) -> bool
    ensures { result ≡ counts_keep plan.now }
{
    count_fits(LEAST_STATES, STATES, number_at(plan, STATE_COUNT))
        && (count_fits(0, VARIABLES, number_at(plan, VAR_COUNT))
            && (count_fits(0, EVENTS, number_at(plan, EVENT_COUNT))
                && (count_fits(0, TRANSITIONS, number_at(plan, HEAD_COUNT))
                    && count_fits(0, INSTRUCTIONS, number_at(plan, INSTR_COUNT)))))
}

// The rows of a plan that is not cut short: variables, heads, blocks, instructions.
#[tactic(auto, unfolding(meaning::specs::WellFormed::rows_well_formed))]
fn rows_well_formed(plan: &[i32], k: Counts) -> bool
    requires { Whole plan.now k }
    ensures { result ≡ rows_well_formed plan.now k }
{
    vars_keep(plan, k) && heads_fit(plan, k) && blocks_fill(plan, k) && code_fits(plan, k)
}

fn well_formed(plan: &[i32]) -> bool
    ensures { result ≡ well_formed plan.now }
{
    let k = counts(plan);
    counts_keep(plan) && plan_end(k) <= plan.len() && rows_well_formed(plan, k)
}

// 0 if the numbers begin with a well-formed plan, else 5.
pub fn examine(plan: &[i32]) -> Result<(), Refusal>
    ensures { answer_by result ≡ examined plan.now }
{
    if well_formed(plan) {
        return Ok(());
    }
    Err(Refusal::NotAPlan)
}
