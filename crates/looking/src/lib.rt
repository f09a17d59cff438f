// The look-ups of a table's states: the winner of a property, and what it says. The look-ups of `StyleCascade` of matcher.rs.
#![tactic(auto)]

pub mod held;
pub mod look;

// The source that wins: its number among the direct styles or the rules, and its source index.
#[derive(Clone, Copy, Debug, PartialEq, Eq)]
pub enum StyleSourceRef {
    Direct(u32, u32),
    Rule(u32, u32),
}
