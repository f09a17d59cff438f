// States, and what a table's states are asked: rules, winners, changes and channels.
use crate::store::Lent;
use crate::{buffer, tell};
use building::root_state;
use cascade::change::{changed_channels, changed_properties};
use cascade::resources::resource_dependent_properties;
use channels::ChannelSet;
use items::halves::half;
use items::said::Said;
use items::{said, say};
use lent::Refusal;
use lent::held::rest;
use lent::words::word;
use lines::text;
use looking::StyleSourceRef;
use looking::look::{get_entry_ref, resource_key, value_kind, winning_source_for_id};
use matcher::MatchState;
use matcher::rules::{matching_part, matching_rules};
use style::{StyleValueKind, StyleValueRef};

// The state in the two words from i on.
pub(crate) fn state(body: &[u32], i: usize) -> MatchState {
    let words = rest(body, i);
    MatchState {
        number: word(words, 0),
        stamp: word(words, 1),
    }
}

pub(crate) fn root(body: &[u32], out: &mut [u8], at: usize) -> usize {
    let state = root_state(word(body, 0));
    say::two(out, at, b"root", state.number, state.stamp)
}

fn matching(body: &[u32], t: Lent, out: &mut [u8], at: usize) -> usize {
    let state = state(body, 0);
    let listing = matching_part(
        t.sheet,
        t.head,
        t.states,
        t.cursors,
        t.matched,
        t.transitions,
        state,
    );
    let used = tell::listing(out, at, listing);
    let list = matching_rules(
        t.sheet,
        t.head,
        t.states,
        t.cursors,
        t.matched,
        t.transitions,
        state,
    );
    tell::rules(out, used, list)
}

fn of_winning(answer: Result<Option<StyleSourceRef>, Refusal>) -> Said {
    match answer {
        Ok(Some(StyleSourceRef::Direct(number, source))) => said::four(0, 1, number, source),
        Ok(Some(StyleSourceRef::Rule(number, source))) => said::four(0, 2, number, source),
        Ok(None) => said::two(0, 0),
        Err(refusal) => said::refused(refusal),
    }
}

fn of_kind(answer: Result<Option<StyleValueKind>, Refusal>) -> Said {
    match answer {
        Ok(Some(StyleValueKind::Value(n))) => said::three(0, 0, n),
        Ok(Some(StyleValueKind::Resource(n))) => said::three(0, 1, n),
        Ok(Some(StyleValueKind::Expr(n))) => said::three(0, 2, n),
        Ok(Some(StyleValueKind::ResourceExpr(n))) => said::three(0, 3, n),
        Ok(None) => said::one(0),
        Err(refusal) => said::refused(refusal),
    }
}

fn of_plain(answer: Result<Option<StyleValueRef>, Refusal>) -> Said {
    match answer {
        Ok(Some(StyleValueRef::Value(n))) => said::three(0, 0, n),
        Ok(Some(StyleValueRef::Resource(n))) => said::three(0, 1, n),
        Ok(None) => said::one(0),
        Err(refusal) => said::refused(refusal),
    }
}

// The winner of a property, and its entry: in full, plainly, and as a resource.
fn winner(body: &[u32], t: Lent, out: &mut [u8], at: usize) -> usize {
    let state = state(body, 0);
    let property = half(word(body, 2));
    let won = winning_source_for_id(
        t.sheet,
        t.head,
        t.states,
        t.cursors,
        t.matched,
        t.transitions,
        state,
        property,
    );
    let a = said::line(out, at, b"winner", of_winning(won));
    let kind = value_kind(
        t.sheet,
        t.head,
        t.states,
        t.cursors,
        t.matched,
        t.transitions,
        state,
        property,
    );
    let b = said::line(out, a, b"kind", of_kind(kind));
    let plain = get_entry_ref(
        t.sheet,
        t.head,
        t.states,
        t.cursors,
        t.matched,
        t.transitions,
        state,
        property,
    );
    let c = said::line(out, b, b"plain", of_plain(plain));
    let key = resource_key(
        t.sheet,
        t.head,
        t.states,
        t.cursors,
        t.matched,
        t.transitions,
        state,
        property,
    );
    said::line(out, c, b"resource", Said::from(key))
}

// Into as much of a buffer as word 4 says.
fn changed(body: &[u32], t: Lent, out: &mut [u8], at: usize) -> usize {
    let mut filled = [buffer::FILLED; buffer::SIZE];
    let lent = &mut filled[..buffer::room(body, 4)];
    let answer = changed_properties(
        t.sheet,
        t.head,
        t.states,
        t.cursors,
        t.matched,
        t.transitions,
        state(body, 0),
        state(body, 2),
        lent,
    );
    buffer::listed(out, at, b"changed", answer, lent)
}

// How many channels a set names, and the lowest.
pub(crate) fn named(out: &mut [u8], at: usize, set: ChannelSet) -> usize {
    let used = say::one(out, at, b"named", set.len());
    match set.lowest() {
        Some(k) => say::one(out, used, b"lowest", k),
        None => text(out, used, b"lowest none\n"),
    }
}

fn channels(body: &[u32], t: Lent, out: &mut [u8], at: usize) -> usize {
    let answer = changed_channels(
        t.sheet,
        t.head,
        t.states,
        t.cursors,
        t.matched,
        t.transitions,
        rest(body, 4),
        state(body, 0),
        state(body, 2),
    );
    match answer {
        Ok(set) => {
            let used = say::two(out, at, b"channels", 0, set.0);
            named(out, used, set)
        }
        Err(refusal) => say::refused(out, at, b"channels", refusal),
    }
}

// Into as much of a buffer as word 0 says.
fn resources(body: &[u32], t: Lent, out: &mut [u8], at: usize) -> usize {
    let mut filled = [buffer::FILLED; buffer::SIZE];
    let lent = &mut filled[..buffer::room(body, 0)];
    let answer = resource_dependent_properties(t.sheet, lent);
    buffer::listed(out, at, b"resources", answer, lent)
}

// What is asked of a table.
pub(crate) fn asked(op: u32, body: &[u32], t: Lent, out: &mut [u8], at: usize) -> usize {
    match op {
        9 => winner(body, t, out, at),
        10 => changed(body, t, out, at),
        11 => channels(body, t, out, at),
        12 => resources(body, t, out, at),
        _ => matching(body, t, out, at),
    }
}
