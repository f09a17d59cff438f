// What an accepted push of a style or of a group writes.
#![tactic(auto)]

pub mod held;
