// Entering a subject under a state of a lent table. `Matcher::enter_subject` of matcher.rs.
#![tactic(auto)]

pub mod enter;
pub mod held;
