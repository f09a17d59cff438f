// Answers cases of sheets from standard input, in the words of the judge (oracle/), so that the two can be compared.
// The input is items of little-endian words: what is to be done, how many words follow, and those words. Two sheets stand ready.
#![tactic(auto)]

use items::MOST;
use items::held::{NONE, SIZE, finish, next};

mod answer;
mod lists;
mod look;
mod push;
mod tell;

// The sheets, and how many words of each are lent.
// A proved loop has to end, and nothing says that the input does: the turns are counted, up to a number that no run reaches.
fn main() {
    let mut input = [0u8; SIZE];
    let mut words = [0u32; MOST];
    let mut first = [0u32; answer::SHEET];
    let mut second = [0u32; answer::SHEET];
    let mut rooms = [0u32; 2];
    let mut out = [0u8; 65536];
    let mut used = 0;
    let mut item = NONE;
    for _ in 0..u64::MAX {
        item = next(&mut input, &mut words, item);
        if item.next <= item.from {
            finish(&input, item.have, &mut out, used);
            return;
        }
        used = answer::item(
            item.op,
            &words,
            item.count,
            &mut first,
            &mut second,
            &mut rooms,
            &mut out,
            used,
        );
    }
}
