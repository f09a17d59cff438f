// What an accepted push of a cascade writes.
#![tactic(auto)]

pub mod held;
