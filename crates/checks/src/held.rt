// What selectors and paths are refused for, in 01's order.
// A count stands beside its list: 2 refuses one past it.
ghost use Rattle.std.specs.Prelude.{◌≡◌, [], ◌∷◌, ℕ, ◌≤◌, ◌*◌, length};
ghost use Rattle.lent.specs.All.{all_below};
ghost use Rattle.lent.specs.Refusals.{check, first_of, verdict_of};
ghost use Rattle.selector.specs.Checks.{row_fits, selector_over, path_over, combinators_off, codes_over, subjects_off, selector_verdict, path_verdict};

use lent::Refusal;
use selector::held::{STEP_WORDS, SUBJECT_WORDS, row_ascends, row_fits};

// Whether the counts of each of n rows of so many words are within `size`.
fn rows_fit(rows: &[u32], words: usize, size: u32, n: usize) -> bool
    requires { (n ≤ 32) × (words ≤ 38) }
    ensures { result ≡ all_below n (λ (k : ℕ). row_fits size rows.now (words * k)) }
{
    for k in 0..n {
        if !row_fits(rows, words * k, size) {
            return false;
        }
    }
    true
}

// Whether a count of n steps or c combinators is over its size or past its list.
pub fn selector_over(steps: &[u32], n: usize, combinators: &[u32], c: usize) -> bool
    ensures { result ≡ selector_over steps.now n combinators.now c }
{
    if 8 < n {
        return true;
    }
    if steps.len() / STEP_WORDS < n {
        return true;
    }
    if combinators.len() < c {
        return true;
    }
    !rows_fit(steps, STEP_WORDS, 8, n)
}

fn path_over(path: &[u32], m: usize) -> bool
    ensures { result ≡ path_over path.now m }
{
    if 32 < m {
        return true;
    }
    if path.len() / SUBJECT_WORDS < m {
        return true;
    }
    !rows_fit(path, SUBJECT_WORDS, 16, m)
}

fn combinators_off(n: usize, c: usize) -> bool
    ensures { result ≡ combinators_off n c }
{
    if n == 0 {
        return c != 0;
    }
    c != n - 1
}

fn codes_over(combinators: &[u32], c: usize) -> bool
    requires { c ≤ length combinators.now }
    ensures { result ≡ codes_over combinators.now c }
{
    combinators[..c].iter().any(|code| 1 < *code)
}

fn subjects_off(path: &[u32], m: usize) -> bool
    requires { m ≤ 32 }
    ensures { result ≡ subjects_off path.now m }
{
    for i in 0..m {
        if !row_ascends(path, SUBJECT_WORDS * i) {
            return true;
        }
    }
    false
}

// 3, then 6, of c combinators for n steps.
pub fn check_combinators(n: usize, combinators: &[u32], c: usize) -> Result<(), Refusal>
    requires { c ≤ length combinators.now }
    ensures { verdict_of result ≡ first_of (check 3 (combinators_off n c) ∷ check 6 (codes_over combinators.now c) ∷ []) }
{
    if combinators_off(n, c) {
        return Err(Refusal::CombinatorCount);
    }
    if codes_over(combinators, c) {
        return Err(Refusal::CodeOutOfRange);
    }
    Ok(())
}

// Of a selector alone: 2, 3, 6.
pub fn check_selector(steps: &[u32], n: usize, combinators: &[u32], c: usize) -> Result<(), Refusal>
    ensures { verdict_of result ≡ selector_verdict steps.now n combinators.now c }
{
    if selector_over(steps, n, combinators, c) {
        return Err(Refusal::OverSize);
    }
    check_combinators(n, combinators, c)
}

// "Matching and diagnosis 2 (selector, then path), 3, 6, 1."
pub fn check_path(
    steps: &[u32],
    n: usize,
    combinators: &[u32],
    c: usize,
    path: &[u32],
    m: usize,
) -> Result<(), Refusal>
    ensures { verdict_of result ≡ path_verdict steps.now n combinators.now c path.now m }
{
    if selector_over(steps, n, combinators, c) {
        return Err(Refusal::OverSize);
    }
    if path_over(path, m) {
        return Err(Refusal::OverSize);
    }
    check_combinators(n, combinators, c)?;
    if subjects_off(path, m) {
        return Err(Refusal::NotAscending);
    }
    Ok(())
}
