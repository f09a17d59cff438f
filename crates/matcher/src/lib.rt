// The matcher over a lent table: the matched rules of a state. `Matcher` of matcher.rs.
#![tactic(auto)]

pub mod held;
pub mod rules;
pub mod states;

// A state of a table: its number, and the stamp that the table was built with.
#[derive(Clone, Copy, Debug, PartialEq, Eq)]
pub struct MatchState {
    pub number: u32,
    pub stamp: u32,
}
