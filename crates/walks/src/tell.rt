// What answers say, and the words of the pieces.
use crate::store::Stored;
use cursor::RuleCursor;
use items::said::Said;
use items::{said, say};
use lent::Refusal;
use lent::held::part;
use lent::words::{wide, word};
use lines::text;
use matcher::MatchState;

// A tag, and the piece's first words, as many as word i says.
fn first(body: &[u32], i: usize, tag: &[u8], piece: &[u32], out: &mut [u8], at: usize) -> usize {
    say::line(out, at, tag, part(piece, 0, wide(word(body, i))))
}

pub(crate) fn pieces(body: &[u32], stored: &Stored, out: &mut [u8], at: usize) -> usize {
    let h = first(body, 0, b"h", &stored.head, out, at);
    let s = first(body, 1, b"s", &stored.states, out, h);
    let c = first(body, 2, b"c", &stored.cursors, out, s);
    let m = first(body, 3, b"m", &stored.matched, out, c);
    first(body, 4, b"t", &stored.transitions, out, m)
}

pub(crate) fn building(out: &mut [u8], at: usize, answer: Result<(), Refusal>) -> usize {
    said::line(out, at, b"build", Said::from(answer))
}

pub(crate) fn entering(out: &mut [u8], at: usize, answer: Result<MatchState, Refusal>) -> usize {
    let numbers = answer.map(|state| (state.number, state.stamp));
    said::line(out, at, b"enter", Said::from(numbers))
}

pub(crate) fn listing(out: &mut [u8], at: usize, answer: Result<(u32, u32), Refusal>) -> usize {
    said::line(out, at, b"part", Said::from(answer))
}

// The rules of a list, as the cursor yields them.
fn yields(out: &mut [u8], at: usize, rules: &[u32]) -> usize {
    let mut used = at;
    for rule in RuleCursor::new(rules) {
        used = say::number(out, used, rule);
    }
    used
}

// A list, and the same by the cursor.
pub(crate) fn rules(out: &mut [u8], at: usize, list: &[u32]) -> usize {
    let used = say::line(out, at, b"list", list);
    let start = text(out, used, b"rules");
    let end = yields(out, start, list);
    say::end(out, end)
}
