// The weight of a selector: selector.rs.
#![tactic(auto)]

pub mod held;
pub mod weigh;
