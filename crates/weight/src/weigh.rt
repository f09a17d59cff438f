// The weight of a selector, counted from its steps' sets: `specificity`, and Level 3's.
// A count stands beside its list: 2 refuses one past it.
ghost use Rattle.std.specs.Prelude.{◌≡◌};
ghost use Rattle.selector.specs.Weighing.{weighing_told, weighing_of};

use crate::held::sum;
use checks::held::check_selector;
use lent::Refusal;
use selector::Specificity;

// Ranking 0: pseudos, classes, parts, types.
pub fn specificity(
    steps: &[u32],
    step_count: usize,
    combinators: &[u32],
    combinator_count: usize,
) -> Result<Specificity, Refusal>
    ensures { weighing_told result ≡ weighing_of 0 steps.now step_count combinators.now combinator_count }
{
    check_selector(steps, step_count, combinators, combinator_count)?;
    Ok(sum(steps, step_count))
}

// Ranking 1: Level 3's counts, classes and pseudos, then types and parts. The published names are two.
pub fn level3_specificity(
    steps: &[u32],
    step_count: usize,
    combinators: &[u32],
    combinator_count: usize,
) -> Result<Specificity, Refusal>
    ensures { weighing_told result ≡ weighing_of 1 steps.now step_count combinators.now combinator_count }
{
    check_selector(steps, step_count, combinators, combinator_count)?;
    let s = sum(steps, step_count);
    Ok(Specificity(s.1 + s.0, s.3 + s.2, 0, 0))
}
