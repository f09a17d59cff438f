// The sheet and the table's pieces, and what is stored in them. No line.
use lent::held::rest;
use lent::words::{copy_into, wide, word};

// How many words the sheet and the table's pieces have.
pub(crate) const SHEET: usize = 67020;

pub(crate) const STATES: usize = 1545;

pub(crate) const CURSORS: usize = 16384;

pub(crate) const MATCHED: usize = 8192;

pub(crate) const TRANSITIONS: usize = 24600;

// The sheet, the table's pieces, and how many words of each are lent.
#[derive(Drop)]
pub(crate) struct Stored {
    pub(crate) sheet: [u32; SHEET],
    pub(crate) head: [u32; 8],
    pub(crate) states: [u32; STATES],
    pub(crate) cursors: [u32; CURSORS],
    pub(crate) matched: [u32; MATCHED],
    pub(crate) transitions: [u32; TRANSITIONS],
    pub(crate) rooms: [u32; 5],
}

// The sheet and the table's pieces, as far as they are lent.
#[derive(Clone, Copy)]
pub(crate) struct Lent<'a> {
    pub(crate) sheet: &'a [u32],
    pub(crate) head: &'a [u32; 8],
    pub(crate) states: &'a [u32],
    pub(crate) cursors: &'a [u32],
    pub(crate) matched: &'a [u32],
    pub(crate) transitions: &'a [u32],
}

// The words after word 0, from the address on that it says.
fn words_after(body: &[u32], piece: &mut [u32]) {
    copy_into(piece, wide(word(body, 0)), rest(body, 1));
}

pub(crate) fn sheet(body: &[u32], stored: &mut Stored, at: usize) -> usize {
    words_after(body, &mut stored.sheet);
    at
}

// The words that are not there are 0.
pub(crate) fn rooms(body: &[u32], stored: &mut Stored, at: usize) -> usize {
    stored.rooms = [
        word(body, 0),
        word(body, 1),
        word(body, 2),
        word(body, 3),
        word(body, 4),
    ];
    at
}

// In the piece that word 0 names.
pub(crate) fn piece(body: &[u32], stored: &mut Stored, at: usize) -> usize {
    let words = rest(body, 1);
    match word(body, 0) % 5 {
        0 => words_after(words, &mut stored.head),
        1 => words_after(words, &mut stored.states),
        2 => words_after(words, &mut stored.cursors),
        3 => words_after(words, &mut stored.matched),
        _ => words_after(words, &mut stored.transitions),
    }
    at
}
