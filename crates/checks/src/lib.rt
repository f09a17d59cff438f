// When a selector or a path is refused.
#![tactic(auto)]

pub mod held;
