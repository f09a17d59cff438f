// Change sets, channel sets and keys by themselves.
use crate::buffer;
use crate::look::named;
use changeset::{from_property_ids, is_empty, len, union};
use channels::{ChannelSet, affected_channels};
use items::halves::halves;
use items::said::Said;
use items::{MOST, said, say};
use keys::CascadeEntryKey;
use lent::held::{part, rest};
use lent::words::{wide, word};
use lines::text;
use selector::Specificity;

// The set of the first ids, as many as word 0 says, into as much of a buffer as word 1 says; its length, and whether it is empty.
fn set_of(body: &[u32], ids: &[u16], out: &mut [u8], at: usize) -> usize {
    let mut filled = [buffer::FILLED; buffer::SIZE];
    let lent = &mut filled[..buffer::room(body, 1)];
    let count = wide(word(body, 0));
    let answer = from_property_ids(ids, count, lent);
    let a = buffer::listed(out, at, b"set", answer, lent);
    let b = said::line(out, a, b"len", buffer::of_count(len(ids, count)));
    said::line(out, b, b"empty", Said::from(is_empty(ids, count)))
}

pub(crate) fn from_ids(body: &[u32], out: &mut [u8], at: usize) -> usize {
    let mut ids = [0u16; MOST];
    let k = halves(rest(body, 2), &mut ids);
    set_of(body, &ids[..k], out, at)
}

// Into as much of a buffer as word 2 says.
fn united(body: &[u32], a: &[u16], b: &[u16], out: &mut [u8], at: usize) -> usize {
    let mut filled = [buffer::FILLED; buffer::SIZE];
    let lent = &mut filled[..buffer::room(body, 2)];
    let n = wide(word(body, 0));
    let m = wide(word(body, 1));
    let answer = union(a, n, b, m, lent);
    buffer::listed(out, at, b"union", answer, lent)
}

// Where the ids of the second list begin.
fn second(body: &[u32]) -> usize {
    4 + wide(word(body, 3))
}

pub(crate) fn unite(body: &[u32], out: &mut [u8], at: usize) -> usize {
    let mut a = [0u16; MOST];
    let mut b = [0u16; MOST];
    let n = halves(part(body, 4, second(body)), &mut a);
    let m = halves(rest(body, second(body)), &mut b);
    united(body, &a[..n], &b[..m], out, at)
}

pub(crate) fn affected(body: &[u32], out: &mut [u8], at: usize) -> usize {
    let k = wide(word(body, 0));
    let mut ids = [0u16; MOST];
    let i = halves(part(body, 1, 1 + k), &mut ids);
    let set = affected_channels(&ids[..i], rest(body, 1 + k));
    let used = say::one(out, at, b"affected", set.0);
    named(out, used, set)
}

pub(crate) fn has(body: &[u32], out: &mut [u8], at: usize) -> usize {
    let set = ChannelSet(word(body, 1));
    say::one(out, at, b"has", u32::from(set.contains(word(body, 0))))
}

// The key in the seven words from i on.
fn key(body: &[u32], i: usize) -> CascadeEntryKey {
    let words = rest(body, i);
    CascadeEntryKey {
        origin: word(words, 0),
        specificity: Specificity(
            word(words, 1),
            word(words, 2),
            word(words, 3),
            word(words, 4),
        ),
        source_index: word(words, 5),
        order: word(words, 6),
    }
}

fn compared(out: &mut [u8], at: usize, order: i32) -> usize {
    if order < 0 {
        return text(out, at, b"compare -1\n");
    }
    if order == 0 {
        return text(out, at, b"compare 0\n");
    }
    text(out, at, b"compare 1\n")
}

pub(crate) fn compare(body: &[u32], out: &mut [u8], at: usize) -> usize {
    let a = key(body, 0);
    let b = key(body, 7);
    let used = compared(out, at, a.compare(b));
    compared(out, used, b.compare(a))
}
