// Where an item ends, and the items of the input one after another.
// A buffer is refilled past the bytes at hand, so their number stands beside it.
ghost use Rattle.std.specs.Prelude.{◌≡◌, ◌≤◌, length, take, ltb};
ghost use Rattle.screen.specs.Ends.{Ends};
ghost use Rattle.items.specs.Items.{end_of, too_long, Taken, Onward};

use crate::{MOST, body, is_too_long};
use lent::words::wide;
use lines::word;
use screen::held::refill;
use screen::{ends, send};

// Where the item that begins at `at` ends; `at` where it is cut short or too long.
pub fn end(input: &[u8], at: usize) -> usize
    requires { at ≤ length input.now }
    ensures lower_bound { (at ≤ result) × (result ≤ length input.now) }
    ensures value { result ≡ end_of input.now at }
{
    let left = input.len() - at;
    if left < 8 {
        return at;
    }
    let n = wide(word(input, at + 4));
    if MOST < n {
        return at;
    }
    let size = 8 + n * 4;
    if left < size { at } else { at + size }
}

// The same of the first `have` bytes.
fn end_within(input: &[u8], have: usize, at: usize) -> usize
    requires { (at ≤ have) × (have ≤ length input.now) }
    ensures { (at ≤ result) × (result ≤ have) × (result ≡ end_of (take have input.now) at) }
{
    end(&input[..have], at)
}

// Where an item begins and ends, and how many bytes are at hand.
#[derive(Clone, Copy)]
struct Stretch {
    from: usize,
    to: usize,
    have: usize,
}

// The item that begins at `at`. Where it is not whole it is moved to the front, and more is read; no bytes if it is not whole then.
fn find(input: &mut [u8], at: usize, have: usize) -> Stretch
    requires { (at ≤ have) × (have ≤ length input.old) }
    ensures from_le_to { (result.from ≤ result.to) × (result.to ≤ result.have) × (result.have ≤ length input.old) × (result.to ≡ end_of (take result.have input.new) result.from) }
    ensures onward { Onward input.old at have input.new result.from result.have }
{
    let to = end_within(input, have, at);
    if at < to {
        return Stretch {
            from: at,
            to: to,
            have: have,
        };
    }
    let n = refill(input, at, have);
    let first = end_within(input, n, 0);
    Stretch {
        from: 0,
        to: first,
        have: n,
    }
}

// The bytes of the buffer. A whole item is shorter.
pub const SIZE: usize = 262144;

// An item: where it begins, its first word, how many words follow, where the next begins, and how many bytes are at hand. What begins where the next
// does is no item, and the input is at its end.
#[derive(Clone, Copy)]
pub struct Item {
    pub from: usize,
    pub op: u32,
    pub count: usize,
    pub next: usize,
    pub have: usize,
}

// Before the first.
pub const NONE: Item = Item {
    from: 0,
    op: 0,
    count: 0,
    next: 0,
    have: 0,
};

fn take(input: &mut [u8], words: &mut [u32], item: Item) -> Item
    requires { (item.next ≤ item.have) × (item.have ≤ length input.old) }
    ensures count_in_bounds { (result.count ≤ length words.old) × (result.next ≤ result.have) × (result.have ≤ length input.old) }
    ensures taken { Taken input.new result.from result.next result.have result.op words.old result.count words.new }
    ensures onward { Onward input.old item.next item.have input.new result.from result.have }
{
    let at = find(input, item.next, item.have);
    let from = at.from;
    let to = at.to;
    let bytes = &input[from..to];
    Item {
        from: from,
        op: word(bytes, 0),
        count: body(bytes, words),
        next: to,
        have: at.have,
    }
}

// The item after `item`, and the words that follow in it; reads on where it is not at hand.
pub fn next(input: &mut [u8; SIZE], words: &mut [u32; MOST], item: Item) -> Item
    requires { (item.next ≤ item.have) × (item.have ≤ 262144) }
    ensures next_le_have { (result.next ≤ result.have) × (result.have ≤ 262144) }
    ensures taken { Taken input.new result.from result.next result.have result.op words.old result.count words.new }
    ensures onward { Onward input.old item.next item.have input.new result.from result.have }
{
    take(input, words, item)
}

fn last(input: &[u8], have: usize, out: &mut [u8], used: usize) -> bool
    requires { have ≤ length input.now }
    ensures { Ends (too_long (take have input.now)) (ltb have (length input.now)) (take have input.now) out.old result out.new }
{
    send(out, used, 0);
    let rest = &input[..have];
    ends(rest, is_too_long(rest), have < input.len(), out)
}

// Writes out what is used of `out`, and the last line, where the `have` bytes at hand are no whole item; whether nothing more is to be read.
pub fn finish(input: &[u8; SIZE], have: usize, out: &mut [u8; 65536], used: usize) -> bool
    requires { have ≤ 262144 }
    ensures { Ends (too_long (take have input.now)) (ltb have (length input.now)) (take have input.now) out.old result out.new }
{
    last(input, have, out, used)
}
