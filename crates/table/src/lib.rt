// The lent table: states, cursors, matched rules and cached transitions. `Matcher` of matcher.rs.
#![tactic(auto)]

pub mod held;
pub mod layout;
pub mod shape;

// A table's five lists, lent to be read.
#[derive(Clone, Copy)]
pub struct Table<'a> {
    pub head: &'a [u32],
    pub states: &'a [u32],
    pub cursors: &'a [u32],
    pub matched: &'a [u32],
    pub transitions: &'a [u32],
}
