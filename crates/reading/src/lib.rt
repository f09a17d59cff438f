// What is read out of a lent sheet. `StyleCascade` and `MatchRule` of matcher.rs.
#![tactic(auto)]

pub mod read;

// A rule's own numbers; `rule_step`, `rule_combinator` and `rule_entry` give the rest.
#[derive(Clone, Copy, Debug, PartialEq, Eq)]
pub struct MatchRule {
    pub origin: u32,
    pub source_index: u32,
    pub order: u32,
    pub step_count: u32,
    pub entry_count: u32,
}

#[derive(Clone, Copy, Debug, PartialEq, Eq)]
pub struct DirectStyle {
    pub origin: u32,
    pub source_index: u32,
    pub entry_count: u32,
}

#[derive(Clone, Copy, Debug, PartialEq, Eq)]
pub struct StyleEntry {
    pub property: u16,
    pub kind: u32,
    pub number: u32,
}
