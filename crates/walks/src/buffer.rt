// A buffer of half words, and what an answer's list left in it.
ghost use Rattle.std.specs.Prelude.{◌≤◌};

use items::said::Said;
use items::{said, say};
use lent::Refusal;
use lent::words::{wide, word};
use lines::text;

// What stands in a buffer at first.
pub(crate) const FILLED: u16 = 43981;

// The most half words that are lent.
pub(crate) const SIZE: usize = 8192;

fn numbers(out: &mut [u8], at: usize, list: &[u16]) -> usize {
    let mut used = at;
    for x in list {
        used = say::number(out, used, u32::from(*x));
    }
    used
}

// How many half words are lent, if word i says so.
pub(crate) fn room(body: &[u32], i: usize) -> usize
    ensures { result ≤ 8192 }
{
    SIZE.min(wide(word(body, i)))
}

fn small(n: usize) -> u32 {
    u32::try_from(n).unwrap_or(u32::MAX)
}

// The first n half words, and how many after them are not what stood there at first.
fn left(out: &mut [u8], at: usize, buffer: &[u16], n: usize) -> usize {
    let (list, past) = buffer.split_at(n.min(buffer.len()));
    let start = text(out, at, b"ids");
    let used = numbers(out, start, list);
    let end = say::end(out, used);
    let changed = past.iter().filter(|x| **x != FILLED).count();
    say::one(out, end, b"past", small(changed))
}

// How many there are.
pub(crate) fn of_count(answer: Result<usize, Refusal>) -> Said {
    Said::from(answer.map(small))
}

// An answer's list.
pub(crate) fn listed(
    out: &mut [u8],
    at: usize,
    tag: &[u8],
    answer: Result<usize, Refusal>,
    buffer: &[u16],
) -> usize {
    let used = said::line(out, at, tag, of_count(answer));
    left(out, used, buffer, answer.unwrap_or(0))
}
