// What the pushes are given, when they are refused and what they leave: definitions; and the writing of single rows.
#![tactic(auto)]

pub mod held;

// The counts of a sheet.
#[derive(Clone, Copy)]
pub struct Counts {
    pub rules: u32,
    pub steps: u32,
    pub ids: u32,
    pub entries: u32,
    pub styles: u32,
    pub style_entries: u32,
    pub next: u32,
}

// The lists that entries are given in: each one's property id, kind and number stand at one place.
#[derive(Clone, Copy)]
pub struct EntryLists<'a> {
    pub properties: &'a [u16],
    pub kinds: &'a [u32],
    pub numbers: &'a [u32],
}

// The lists that a group of rules is given in. Three words a rule say how many steps, combinators and entries it has.
#[derive(Clone, Copy)]
pub struct GroupLists<'a> {
    pub rules: &'a [u32],
    pub steps: &'a [u32],
    pub combinators: &'a [u32],
    pub entries: EntryLists<'a>,
}
