// Lists end to end over a pool: list k runs from end k-1 (0 for the first) to end k. The ends stand in a column of lent words.
ghost use Rattle.std.specs.Prelude.{◌≡◌};
ghost use Rattle.lent.specs.Pool.{address_of, ends_in, start_of};

use crate::words::{wide, word};

// Where a column stands: its first word, and how many words lie from one row to the next.
#[derive(Clone, Copy)]
pub struct Column {
    pub base: u32,
    pub stride: u32,
}

// Where the column's word of a row stands.
pub fn address(column: Column, row: u32) -> usize
    ensures { result ≡ address_of column.base column.stride row }
{
    wide(column.base) + wide(column.stride) * wide(row)
}

// The column's word of a row.
pub fn cell(words: &[u32], column: Column, row: u32) -> u32
    ensures { result ≡ ends_in words.now column.base column.stride row }
{
    word(words, address(column, row))
}

// Where list k begins.
pub fn start_of(words: &[u32], column: Column, k: u32) -> u32
    ensures { result ≡ start_of (ends_in words.now column.base column.stride) k }
{
    if k == 0 {
        return 0;
    }
    cell(words, column, k - 1)
}
