// The cases that selector.rs's IdSet, the order of slices and id.rs answer.
ghost use Rattle.std.specs.Prelude.{◌≤◌, length};
ghost use Rattle.replay.specs.Sets.{Set};

use crate::say::{numbers, sign, verdict};
use idset::{compare, held, is_ascending};
use lent::held::part;
use lent::words::{wide, word};
use lines::text;
use property::PropertyId;
use screen::labelled;

// `IdSet::from_ids` of the words from `from` up to `to`
fn set_of(body: &[u32], from: usize, to: usize, ids: &mut [u32; 4096]) -> usize
    requires { length body.now ≤ 4096 }
    ensures { Set ids.new result }
{
    held::from_ids(part(body, from, to), ids)
}

// `set K: a b c`, the ids sorted and made unique
pub(crate) fn set(given: &[u32], out: &mut [u8], at: usize) -> usize
    requires { length given.now ≤ 4096 }
{
    let mut ids = [0u32; 4096];
    let n = set_of(given, 0, given.len(), &mut ids);
    let start = labelled(out, at, b"set ", n as u64);
    let used = text(out, start, b":");
    let end = numbers(out, used, &ids[..n]);
    text(out, end, b"\n")
}

pub(crate) fn ascending(ids: &[u32], out: &mut [u8], at: usize) -> usize {
    let used = text(out, at, b"ascending");
    verdict(out, used, is_ascending(ids))
}

// Whether the first id is in the set of the others.
pub(crate) fn contains(body: &[u32], out: &mut [u8], at: usize) -> usize
    requires { length body.now ≤ 4096 }
{
    let mut ids = [0u32; 4096];
    let n = set_of(body, 1, body.len(), &mut ids);
    let yes = held::contains(&ids[..n], word(body, 0));
    let used = text(out, at, b"contains");
    verdict(out, used, yes)
}

// The first word says how many of the others are the first list: where the second begins.
pub(crate) fn second(body: &[u32]) -> usize {
    wide(word(body, 0)) + 1
}

pub(crate) fn compares(body: &[u32], out: &mut [u8], at: usize) -> usize {
    let k = second(body);
    let order = compare(part(body, 1, k), part(body, k, body.len()));
    let used = text(out, at, b"compare");
    sign(out, used, order)
}

// Whether the set of the first list is contained in that of the second.
pub(crate) fn subset(body: &[u32], out: &mut [u8], at: usize) -> usize
    requires { length body.now ≤ 4096 }
{
    let mut needles = [0u32; 4096];
    let mut haystack = [0u32; 4096];
    let k = second(body);
    let n = set_of(body, 1, k, &mut needles);
    let m = set_of(body, k, body.len(), &mut haystack);
    let yes = held::is_subset(&needles[..n], &haystack[..m]);
    let used = text(out, at, b"subset");
    verdict(out, used, yes)
}

// Two properties, and how they compare.
fn pair(out: &mut [u8], at: usize, first: PropertyId, second: PropertyId) -> usize {
    let used = labelled(out, at, b"property ", first.index() as u64);
    let then = labelled(out, used, b" ", second.index() as u64);
    sign(out, then, first.compare(second))
}

pub(crate) fn properties(body: &[u32], out: &mut [u8], at: usize) -> usize {
    let first = u16::try_from(word(body, 0));
    let second = u16::try_from(word(body, 1));
    let (Ok(a), Ok(b)) = (first, second) else {
        return text(out, at, b"refused\n");
    };
    pair(out, at, PropertyId::new(a), PropertyId::new(b))
}
