// Putting a state into a table, or finding the equal one.
#![tactic(auto)]

pub mod held;
