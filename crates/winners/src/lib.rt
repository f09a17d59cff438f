// Which source wins a property. `StyleSourceRef` of matcher.rs.
#![tactic(auto)]

use keys::CascadeEntryKey;

pub mod held;

// A direct style or a rule, by its number in the sheet.
#[derive(Clone, Copy, Debug, PartialEq, Eq)]
pub enum Source {
    Style(u32),
    Rule(u32),
}

// The best source so far, and its key.
#[derive(Clone, Copy)]
pub struct Best {
    pub source: Source,
    pub key: CascadeEntryKey,
}

// An entry's kind and number.
#[derive(Clone, Copy, Debug, PartialEq, Eq)]
pub struct Found {
    pub kind: u32,
    pub number: u32,
}
