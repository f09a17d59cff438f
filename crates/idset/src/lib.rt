// Ascending lists of numbers, `IdSet` in the Rust: here its `is_sorted_unique` and the order of slices, on lists that anyone may give.
#![tactic(auto)]

ghost use Rattle.std.specs.Prelude.{◌≡◌};
ghost use Rattle.theory.specs.Lists.{ascends, at_most, compare};

use std::cmp::Ordering;

pub mod held;

// Whether each id is above the one before it.
pub fn is_ascending(ids: &[u32]) -> bool
    ensures { result ≡ ascends ids.now }
{
    let mut low: usize = 0;
    for x in ids {
        let id = *x as usize;
        if id < low {
            return false;
        }
        low = id + 1;
    }
    true
}

// Whether no number is above the limit.
pub fn at_most(numbers: &[u32], limit: u32) -> bool
    ensures { result ≡ at_most limit numbers.now }
{
    numbers.iter().all(|n| *n <= limit)
}

// The order of two lists, as in a dictionary: -1, 0 or 1. A number, as 01 asks for it.
pub fn compare(a: &[u32], b: &[u32]) -> i32
    ensures { result ≡ compare a.now b.now }
{
    match a.cmp(b) {
        Ordering::Less => -1,
        Ordering::Equal => 0,
        Ordering::Greater => 1,
    }
}
