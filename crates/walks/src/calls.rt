// The calls that write a table. Its pieces are as far as they are lent.
use crate::store::{self, Stored};
use crate::{look, tell};
use entering::enter::enter_subject;
use items::room;
use lent::words::word;
use typed::SelectorInputs;

pub(crate) fn build(body: &[u32], stored: &mut Stored, out: &mut [u8], at: usize) -> usize {
    let a = room(&stored.rooms, 0, store::SHEET);
    let b = room(&stored.rooms, 1, store::STATES);
    let c = room(&stored.rooms, 2, store::CURSORS);
    let states = &mut stored.states[..];
    let cursors = &mut stored.cursors[..];
    let building = building::build(
        &stored.sheet[..a],
        word(body, 0),
        word(body, 1),
        &mut stored.head,
        &mut states[..b],
        &mut cursors[..c],
    );
    tell::building(out, at, building)
}

pub(crate) fn enter(body: &[u32], stored: &mut Stored, out: &mut [u8], at: usize) -> usize {
    let a = room(&stored.rooms, 0, store::SHEET);
    let b = room(&stored.rooms, 1, store::STATES);
    let c = room(&stored.rooms, 2, store::CURSORS);
    let d = room(&stored.rooms, 3, store::MATCHED);
    let e = room(&stored.rooms, 4, store::TRANSITIONS);
    let states = &mut stored.states[..];
    let cursors = &mut stored.cursors[..];
    let matched = &mut stored.matched[..];
    let transitions = &mut stored.transitions[..];
    let entering = enter_subject(
        &stored.sheet[..a],
        &mut stored.head,
        &mut states[..b],
        &mut cursors[..c],
        &mut matched[..d],
        &mut transitions[..e],
        look::state(body, 0),
        SelectorInputs::from_row(body, 2),
    );
    tell::entering(out, at, entering)
}
