// Keeping a transition, in its parent's chain.
#![tactic(auto)]

pub mod held;
