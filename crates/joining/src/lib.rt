// When a push of a cascade is refused, and the next source index after it.
#![tactic(auto)]

pub mod cascades;
