// The lines of answers, laid into a lent buffer.
#![tactic(auto)]

pub mod held;
