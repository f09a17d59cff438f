// The weights of rows that keep to their sizes.
ghost use Rattle.std.specs.Prelude.{◌≡◌, true, ℕ, ◌+◌, ◌<◌, ◌≤◌, ◌*◌, length};
ghost use Rattle.theory.specs.Lists.{sort};
ghost use Rattle.lent.specs.All.{all_below};
ghost use Rattle.selector.specs.Rows.{row_at};
ghost use Rattle.selector.specs.Checks.{row_fits};
ghost use Rattle.selector.specs.Tags.{as_sets};
ghost use Rattle.selector.specs.Weighing.{counts_in, Counted, Summed};

use selector::Specificity;
use selector::held::{STEP_WORDS, flag, ids};

// How many different ids there are.
fn different(given: &[u32]) -> u32
    requires { length given.now ≤ 8 }
    ensures { result ≡ length (sort given.now) }
{
    let mut set = [0u32; 8];
    idset::held::from_ids(given, &mut set) as u32
}

// `SelectorStep::specificity`, of the row that begins at word s.
pub fn step_specificity(steps: &[u32], s: usize) -> Specificity
    requires { (s < 4294967000) × (row_fits 8 steps.now s ≡ true) }
    ensures { Counted (as_sets (row_at 8 steps.now s)) result }
{
    let pseudos = different(ids(steps, s + 14, s + 5));
    let classes = different(ids(steps, s + 6, s + 4));
    Specificity(pseudos, classes, flag(steps, s + 2), flag(steps, s))
}

// Each count summed over n steps.
pub fn sum(steps: &[u32], n: usize) -> Specificity
    requires { (n ≤ 8) × (all_below n (λ (k : ℕ). row_fits 8 steps.now (22 * k)) ≡ true) }
    ensures { Summed (counts_in steps.now n) result }
{
    let mut pseudos: u32 = 0;
    let mut classes: u32 = 0;
    let mut parts: u32 = 0;
    let mut types: u32 = 0;
    for k in 0..n {
        let s = step_specificity(steps, STEP_WORDS * k);
        pseudos += s.0;
        classes += s.1;
        parts += s.2;
        types += s.3;
    }
    Specificity(pseudos, classes, parts, types)
}
