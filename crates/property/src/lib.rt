// The property number: id.rs of understory_property.
#![tactic(auto)]

ghost use Rattle.std.specs.Prelude.{◌≡◌};
ghost use Rattle.property.specs.Order.{order_of};

use std::cmp::Ordering;

// A runtime property identifier, as in the Rust a handle over u16. 01: "property ids u16".
#[derive(Clone, Copy, Debug, PartialEq, Eq, PartialOrd, Ord, Hash)]
pub struct PropertyId(pub u16);

impl PropertyId {
    pub fn new(index: u16) -> Self
        ensures { result.0 ≡ index }
    {
        PropertyId(index)
    }

    pub fn index(self) -> u16
        ensures { result ≡ self.0 }
    {
        self.0
    }

    // The derived order, as a number: -1, 0 or 1.
    pub fn compare(self, other: PropertyId) -> i32
        ensures { result ≡ order_of self.0 other.0 }
    {
        match self.cmp(&other) {
            Ordering::Less => -1,
            Ordering::Equal => 0,
            Ordering::Greater => 1,
        }
    }
}
