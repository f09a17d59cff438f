// Why a selector does not fit a path: `diagnose_path` of selector.rs.
// A count stands beside its list: 2 refuses one past it.
#![tactic(auto)]

ghost use Rattle.std.specs.Prelude.{◌≡◌, ◌<◌, ◌+◌, ◌-◌};
ghost use Rattle.theory.specs.Lists.{spread};
ghost use Rattle.selector.specs.Matching.{hit_at, far_at};
ghost use Rattle.selector.specs.Diagnosing.{tried, judge, diagnosis_told, diagnosis_of};

use checks::held::check_path;
use lent::Refusal;
use matching::held::{Pairing, hits, is_far};
use selector::SelectorMismatch;

// What is found of the steps from `step` on, up to the last of n, with `step` at `place`.
#[cycle(diagnose_path_from_try_later)]
fn diagnose_path_from(p: Pairing, step: usize, place: usize) -> Result<(), SelectorMismatch>
    requires { step < p.n }
    ensures { result ≡ judge (hit_at p.entry.steps.now p.entry.path.now) (far_at p.entry.combinators.now) p.entry.m (p.entry.n - (step + 1)) step place }
{
    if p.m <= place {
        return Err(SelectorMismatch::MissingSubject {
            step_index: step,
            path_index: place,
        });
    }
    if !hits(p.steps, step, p.path, p.m, place) {
        return Err(SelectorMismatch::StepMismatch {
            step_index: step,
            path_index: place,
        });
    }
    let next = step + 1;
    let after = place + 1;
    if next < p.n {
        if is_far(p.combinators, step) {
            let none = Err(SelectorMismatch::MissingDescendant {
                step_index: next,
                after_path_index: after,
            });
            try_later(p, next, after, none)
        } else {
            diagnose_path_from(p, next, after)
        }
    } else if after < p.m {
        Err(SelectorMismatch::TrailingSubjects {
            step_count: next,
            path_index: after,
        })
    } else {
        Ok(())
    }
}

// What is found of `step` at `from` and each later place: a fit, or the last error that counts, `last` if there is none.
#[cycle(diagnose_path_from_try_later)]
fn try_later(
    p: Pairing,
    step: usize,
    from: usize,
    last: Result<(), SelectorMismatch>,
) -> Result<(), SelectorMismatch>
    requires { step < p.n }
    ensures { result ≡ tried last (spread (judge (hit_at p.entry.steps.now p.entry.path.now) (far_at p.entry.combinators.now) p.entry.m (p.entry.n - (step + 1)) step) from (p.entry.m - from)) }
{
    if p.m <= from {
        return last;
    }
    let found = diagnose_path_from(p, step, from);
    let next = from + 1;
    let Err(error) = found else {
        return Ok(());
    };
    match error {
        SelectorMismatch::StepMismatch { .. } => try_later(p, step, next, last),
        _ => try_later(p, step, next, found),
    }
}

// A fit, or why there is none.
pub fn diagnose_path(
    steps: &[u32],
    step_count: usize,
    combinators: &[u32],
    combinator_count: usize,
    path: &[u32],
    path_count: usize,
) -> Result<Result<(), SelectorMismatch>, Refusal>
    ensures { diagnosis_told result ≡ diagnosis_of steps.now step_count combinators.now combinator_count path.now path_count }
{
    check_path(
        steps,
        step_count,
        combinators,
        combinator_count,
        path,
        path_count,
    )?;
    if step_count == 0 {
        if path_count == 0 {
            return Ok(Ok(()));
        }
        return Ok(Err(SelectorMismatch::EmptySelectorWithNonEmptyPath));
    }
    let p = Pairing {
        steps,
        n: step_count,
        combinators,
        path,
        m: path_count,
    };
    Ok(diagnose_path_from(p, 0, 0))
}
