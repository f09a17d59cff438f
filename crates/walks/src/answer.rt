// The lines of one item. A number of the input says what is to be done.
use crate::store::{Lent, Stored};
use crate::{calls, look, sets, store, tell};
use items::{MOST, room, say};
use lent::held::part;

// What is asked of the table, as far as it is lent.
fn asked(op: u32, body: &[u32], stored: &Stored, out: &mut [u8], at: usize) -> usize {
    let rooms = &stored.rooms;
    let lent = Lent {
        sheet: &stored.sheet[..room(rooms, 0, store::SHEET)],
        head: &stored.head,
        states: &stored.states[..room(rooms, 1, store::STATES)],
        cursors: &stored.cursors[..room(rooms, 2, store::CURSORS)],
        matched: &stored.matched[..room(rooms, 3, store::MATCHED)],
        transitions: &stored.transitions[..room(rooms, 4, store::TRANSITIONS)],
    };
    look::asked(op, body, lent, out, at)
}

// On no table.
fn alone(op: u32, body: &[u32], out: &mut [u8], at: usize) -> usize {
    match op {
        8 => look::root(body, out, at),
        13 => sets::from_ids(body, out, at),
        14 => sets::unite(body, out, at),
        15 => sets::affected(body, out, at),
        16 => sets::has(body, out, at),
        17 => sets::compare(body, out, at),
        _ => say::one(out, at, b"op", op),
    }
}

// Answers the item whose words are the first n.
pub(crate) fn by_op(
    op: u32,
    words: &[u32; MOST],
    n: usize,
    stored: &mut Stored,
    out: &mut [u8; 65536],
    at: usize,
) -> usize {
    let body = part(words, 0, n);
    match op {
        1 => store::sheet(body, stored, at),
        2 => store::rooms(body, stored, at),
        3 => calls::build(body, stored, out, at),
        4 => calls::enter(body, stored, out, at),
        5 | 9..=12 => asked(op, body, stored, out, at),
        6 => store::piece(body, stored, at),
        7 => tell::pieces(body, stored, out, at),
        _ => alone(op, body, out, at),
    }
}
