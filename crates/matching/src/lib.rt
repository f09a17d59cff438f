// Whether a selector fits a path: `matches_path` of selector.rs.
// A count stands beside its list: 2 refuses one past it.
#![tactic(auto)]

ghost use Rattle.std.specs.Prelude.{◌≡◌, ◌<◌, ◌+◌, ◌-◌};
ghost use Rattle.selector.specs.Matching.{any_from, fits_from, hit_at, far_at, matching_told, matching_of};

use crate::held::{Pairing, hits, is_far};
use checks::held::check_path;
use lent::Refusal;

pub mod held;

// Whether the steps from `step` on, up to the last of n, fit to the end of the m places, with `step` at `place`.
#[cycle(matches_later_matches_path_from)]
fn matches_path_from(p: Pairing, step: usize, place: usize) -> bool
    requires { step < p.n }
    ensures { result ≡ fits_from (hit_at p.entry.steps.now p.entry.path.now) (far_at p.entry.combinators.now) p.entry.m (p.entry.n - (step + 1)) step place }
{
    if p.m <= place {
        return false;
    }
    if !hits(p.steps, step, p.path, p.m, place) {
        return false;
    }
    let next = step + 1;
    let after = place + 1;
    if next < p.n {
        if is_far(p.combinators, step) {
            matches_later(p, next, after)
        } else {
            matches_path_from(p, next, after)
        }
    } else {
        after == p.m
    }
}

// Whether they fit with `step` at `from` or a later place.
#[cycle(matches_later_matches_path_from)]
fn matches_later(p: Pairing, step: usize, from: usize) -> bool
    requires { step < p.n }
    ensures { result ≡ any_from (fits_from (hit_at p.entry.steps.now p.entry.path.now) (far_at p.entry.combinators.now) p.entry.m (p.entry.n - (step + 1)) step) (p.entry.m - from) from }
{
    if p.m <= from {
        return false;
    }
    if matches_path_from(p, step, from) {
        return true;
    }
    matches_later(p, step, from + 1)
}

// Whether the selector of `step_count` step rows fits the path of `path_count` subject rows.
pub fn matches_path(
    steps: &[u32],
    step_count: usize,
    combinators: &[u32],
    combinator_count: usize,
    path: &[u32],
    path_count: usize,
) -> Result<bool, Refusal>
    ensures { matching_told result ≡ matching_of steps.now step_count combinators.now combinator_count path.now path_count }
{
    check_path(
        steps,
        step_count,
        combinators,
        combinator_count,
        path,
        path_count,
    )?;
    if step_count == 0 {
        return Ok(path_count == 0);
    }
    let p = Pairing {
        steps,
        n: step_count,
        combinators,
        path,
        m: path_count,
    };
    Ok(matches_path_from(p, 0, 0))
}
