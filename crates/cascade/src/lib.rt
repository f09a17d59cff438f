// The cascade: changes and channels between a table's states. The changes of `StyleCascade` of matcher.rs.
#![tactic(auto)]

pub mod change;
pub mod held;
pub mod resources;
