// Items of input, for the programs that compare with the published Rust: little-endian words, which say what is to be done, how many words follow,
// and those words.
#![tactic(auto)]

ghost use Rattle.std.specs.Prelude.{◌≡◌, ◌≤◌, min, length, get_or, drop};
ghost use Rattle.lines.specs.Text.{Read};
ghost use Rattle.items.specs.Items.{too_long};

use lent::words::{wide, word};

pub mod halves;
pub mod held;
pub mod said;
pub mod say;

// Most words that follow.
pub const MOST: usize = 32768;

// Whether the item that begins the bytes says that too many words follow.
pub fn is_too_long(input: &[u8]) -> bool
    ensures { result ≡ too_long input.now }
{
    if input.len() < 8 {
        return false;
    }
    MOST < wide(lines::word(input, 4))
}

// The words that follow in an item; how many.
pub fn body(item: &[u8], into: &mut [u32]) -> usize
    ensures { (result ≤ length into.old) × Read (drop 8 item.now) into.old result into.new }
{
    if item.len() < 8 {
        return 0;
    }
    lines::words(&item[8..], into)
}

// How many of `most` words are lent, if word i of `rooms` is the room.
pub fn room(rooms: &[u32], i: usize, most: usize) -> usize
    ensures { (result ≤ most) × (result ≡ min (get_or rooms.now i 0) most) }
{
    let n = wide(word(rooms, i));
    if most < n { most } else { n }
}
