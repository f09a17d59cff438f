// Records 2 to 8 taken: gathered into the lists that a push takes, and pushed.
#![tactic(auto)]

pub mod held;
