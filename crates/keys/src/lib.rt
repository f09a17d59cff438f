// The key of a source, and how two keys compare: `CascadeEntryKey` of matcher.rs.
#![tactic(auto)]

ghost use Rattle.std.specs.Prelude.{◌≡◌};
ghost use Rattle.theory.specs.Cascade.{compare_keys};
ghost use Rattle.keys.specs.Keys.{key_from};

use selector::Specificity;
use std::cmp::Ordering;

pub mod held;

// Compared in the order of its fields.
#[derive(Clone, Copy, Debug, PartialEq, Eq, PartialOrd, Ord)]
pub struct CascadeEntryKey {
    pub origin: u32,
    pub specificity: Specificity,
    pub source_index: u32,
    pub order: u32,
}

impl CascadeEntryKey {
    // -1, 0 or 1; exchanging the sides negates it. A number, as 01 asks for it.
    pub fn compare(self, other: CascadeEntryKey) -> i32
        ensures { result ≡ compare_keys (key_from self) (key_from other) }
    {
        match self.cmp(&other) {
            Ordering::Less => -1,
            Ordering::Equal => 0,
            Ordering::Greater => 1,
        }
    }
}
