// House records read out of bytes.
#![tactic(auto)]

pub mod held;

// A record's kind, and the numbers of its body; 0 for one that it has not. Kinds stay numbers: specs/ reads a record of any byte by 01's table of widths,
// and what `walk` prints is defined by them.
#[derive(Clone, Copy)]
pub struct Record {
    pub kind: u32,
    pub first: u32,
    pub second: u32,
    pub third: u32,
}
