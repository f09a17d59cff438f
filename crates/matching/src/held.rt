// What matching and diagnosis test: a step at a place, and a combinator.
ghost use Rattle.std.specs.Prelude.{◌≡◌, false, ◌<◌, ◌≤◌};
ghost use Rattle.selector.specs.Checks.{subjects_off};
ghost use Rattle.selector.specs.Matching.{hit_at, far_at};

use lent::words::word;
use selector::held::{STEP_WORDS, SUBJECT_WORDS, matches_row};

// A selector of n steps and a path of m places, lent, that keep to their sizes, each subject's ids ascending.
#[derive(Clone, Copy)]
pub struct Pairing<'a> {
    pub steps: &'a [u32],
    pub n: usize,
    pub combinators: &'a [u32],
    pub path: &'a [u32],
    pub m: usize,
    pub ghost steps_few: { n ≤ 8 },
    pub ghost places_few: { m ≤ 32 },
    pub ghost sorted: { subjects_off path.now m ≡ false },
}

// Whether step k matches at place i.
pub fn hits(steps: &[u32], k: usize, path: &[u32], m: usize, i: usize) -> bool
    requires { (k < 8) × (i < m) × (m ≤ 32) × (subjects_off path.now m ≡ false) }
    ensures { result ≡ hit_at steps.now path.now k i }
{
    matches_row(steps, STEP_WORDS * k, path, SUBJECT_WORDS * i)
}

// Whether a descendant combinator follows step k.
pub fn is_far(combinators: &[u32], k: usize) -> bool
    ensures { result ≡ far_at combinators.now k }
{
    word(combinators, k) != 0
}
