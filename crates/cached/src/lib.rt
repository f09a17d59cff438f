// Cached transitions: `Matcher::enter` looks for one before it works a state out.
#![tactic(auto)]

pub mod held;
