// An equal state found in a table, and room for a new one.
#![tactic(auto)]

pub mod held;
