// When a push of a style or a group is refused: 01's table and its "Order".
#![tactic(auto)]

pub mod held;
pub mod sources;
