// House records fed in pieces: a sheet made of records 1 to 8, and records 9 to 12 answered.
#![tactic(auto)]

use gather::Filled;
use lent::Refusal;

pub mod held;

// How far the records have come, up to kind 8.
#[derive(Clone, Copy, Debug, PartialEq, Eq)]
pub enum Stage {
    // none was taken
    Unbegun,
    // a sheet is in the making
    Begun,
    // a record was refused
    Stopped(Refusal),
    // the sheet's end
    Done,
}

// A sheet in the making. `offset` is that of the next record, or of the refused one; `at` is where the next begins in the piece.
#[derive(Clone, Copy, Debug, PartialEq, Eq)]
pub struct Making {
    pub stage: Stage,
    pub ranking: u32,
    pub stamp: u32,
    pub offset: u64,
    pub at: usize,
    pub filled: Filled,
}

// What stands at the front of bytes.
#[derive(Clone, Copy, Debug, PartialEq, Eq)]
pub enum Found {
    // a record
    Whole,
    // the beginning of one, or nothing
    Short,
    // a byte that is no kind
    Unknown,
}

// How far the records after kind 8 have come: where the next begins in the piece, or the one that ends the program, its offset, how many bytes of lines
// there are, and whether the program ends. The other fields hold whether it ends or not.
#[derive(Clone, Copy, Debug, PartialEq, Eq)]
pub struct Walked {
    pub at: usize,
    pub offset: u64,
    pub used: usize,
    pub ends: bool,
}
