// The lines of one item. A number of the input says what is to be done.
use crate::{look, push, tell};
use items::{MOST, room, say};
use lent::held::part;
use lent::words::{put, wide, word};

// How many words a sheet has.
pub(crate) const SHEET: usize = 67020;

// What is read.
fn reading(op: u32, body: &[u32], sheet: &[u32], out: &mut [u8], at: usize) -> usize {
    match op {
        7 => tell::all(sheet, out, at),
        8 => tell::one(body, sheet, out, at),
        9 => look::source(body, sheet, out, at),
        10 => look::lent_lists(body, out, at),
        _ => say::one(out, at, b"op", op),
    }
}

// What is done to the sheet, or read.
fn on_sheet(
    op: u32,
    body: &[u32],
    sheet: &mut [u32],
    other: &[u32],
    out: &mut [u8],
    at: usize,
) -> usize {
    match op {
        1 => push::new(sheet, out, at),
        2..=4 => push::source(op, body, sheet, out, at),
        5 => push::cascade(sheet, other, out, at),
        6 => push::store(body, sheet, at),
        _ => reading(op, body, sheet, out, at),
    }
}

// The room that the first item of a sheet says.
fn set_room(op: u32, body: &[u32], rooms: &mut [u32; 2]) {
    if op == 1 {
        put(rooms, wide(word(body, 0) % 2), word(body, 1));
    }
}

// The two sheets, each as far as it is lent: the one that the item names, and the other.
fn on_sheets(
    op: u32,
    body: &[u32],
    first: &mut [u32],
    second: &mut [u32],
    rooms: &[u32],
    out: &mut [u8],
    at: usize,
) -> usize {
    let n = room(rooms, 0, first.len());
    let m = room(rooms, 1, second.len());
    if word(body, 0) % 2 == 0 {
        return on_sheet(op, body, &mut first[..n], &second[..m], out, at);
    }
    on_sheet(op, body, &mut second[..m], &first[..n], out, at)
}

// Answers the item whose words are the first n.
pub(crate) fn item(
    op: u32,
    words: &[u32; MOST],
    n: usize,
    first: &mut [u32; SHEET],
    second: &mut [u32; SHEET],
    rooms: &mut [u32; 2],
    out: &mut [u8; 65536],
    at: usize,
) -> usize {
    let body = part(words, 0, n);
    set_room(op, body, rooms);
    on_sheets(op, body, first, second, rooms, out, at)
}
