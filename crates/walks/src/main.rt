// Answers cases of tables from standard input, in the words of the judge (oracle/), so that the two can be compared.
// The input is items of little-endian words: what is to be done, how many words follow, and those words. A sheet and a table stand ready.
#![tactic(auto)]

use items::MOST;
use items::held::{NONE, SIZE, finish, next};

mod answer;
mod buffer;
mod calls;
mod look;
mod sets;
mod store;
mod tell;

use store::Stored;

// A proved loop has to end, and nothing says that the input does: the turns are counted, up to a number that no run reaches.
fn main() {
    let mut input = [0u8; SIZE];
    let mut words = [0u32; MOST];
    let mut stored = Stored {
        sheet: [0u32; store::SHEET],
        head: [0u32; 8],
        states: [0u32; store::STATES],
        cursors: [0u32; store::CURSORS],
        matched: [0u32; store::MATCHED],
        transitions: [0u32; store::TRANSITIONS],
        rooms: [0u32; 5],
    };
    let mut out = [0u8; 65536];
    let mut used = 0;
    let mut item = NONE;
    for _ in 0..u64::MAX {
        item = next(&mut input, &mut words, item);
        if item.next <= item.from {
            finish(&input, item.have, &mut out, used);
            return;
        }
        used = answer::by_op(item.op, &words, item.count, &mut stored, &mut out, used);
    }
}
