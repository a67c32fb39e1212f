// The rules' check (01, "Chart rules, in order"): R0 to R7 are tried in order and the first that fails is named. No
// function requires anything of the chart that is lent: a slice too short, or with wrong counts, fails R0.
#![tactic(auto)]

pub mod records;
pub mod states;
pub mod value;

ghost use Rattle.std.specs.Prelude.{◌≡◌, ◌∷◌, []};
ghost use Rattle.meaning.specs.Answers.{answer_by};
ghost use Rattle.meaning.specs.Rules.{first_failing, failing_rule, failing_rule_of, verdict};
ghost use Rattle.meaning.specs.Value.{chart_of};

use meaning::answers::Refusal;

// A rule that does not hold is refused by its number.
fn passed(rule: usize, holds: bool) -> Result<(), Refusal>
    ensures { answer_by result ≡ verdict (first_failing rule (holds ∷ [])) }
{
    if holds {
        Ok(())
    } else {
        Err(Refusal::RuleFails(rule))
    }
}

// R1 to R7, for a chart that was read from a text. Each is tried only where those before it hold.
pub fn check_rows(chart: &[i32]) -> Result<(), Refusal>
    ensures { answer_by result ≡ verdict (failing_rule (chart_of chart.now)) }
{
    passed(1, states::rule_1(chart))?;
    passed(2, states::rule_2(chart))?;
    passed(3, states::rule_3(chart))?;
    passed(4, states::rule_4(chart))?;
    passed(5, records::rule_5(chart))?;
    passed(6, records::rule_6(chart))?;
    passed(7, records::rule_7(chart))
}

// R0 to R7, for a chart handed over as a value.
pub fn check(chart: &[i32]) -> Result<(), Refusal>
    ensures { answer_by result ≡ verdict (failing_rule_of chart.now) }
{
    if !value::rule_0(chart) {
        return Err(Refusal::RuleFails(0));
    }
    check_rows(chart)
}
