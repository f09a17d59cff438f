// The weight of a sheet's rule.
#![tactic(auto)]

pub mod held;
