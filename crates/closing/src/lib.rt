// Records 2, 3 and 8: what is open is pushed, and another opened.
#![tactic(auto)]

pub mod held;
