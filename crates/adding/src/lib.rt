// Records 4 to 7: a rule, a step, a requirement and an entry more in the lists that a push takes. One that can't be read is refused at offset 0 here:
// who feeds records puts its own in its place.
#![tactic(auto)]

pub mod held;
