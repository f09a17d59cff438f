// For callers that hold the sheet to its shape, and lend a buffer for lines.
// The table's lists come apart: calls write to some and read others, and a struct that lends each again is no plainer.
ghost use Rattle.std.specs.Prelude.{◌≡◌, true, ◌≤◌, length};
ghost use Rattle.std.proofs.lemmas.List.Edits.{sets};
ghost use Rattle.sheet.specs.Shape.{sheet_shape};
ghost use Rattle.table.specs.Tables.{table};
ghost use Rattle.wording.specs.Lines.{refused_line};
ghost use Rattle.replies.specs.Memory.{Ready};

use house::held::is_over;
use house::{Making, Walked};
use screen::held::{fill, shift};
use screen::send;
use sheet::Sheet;
use walking::held::feed_walk;
use wording::held::refused;

// How many bytes are at hand, the offset of the next record, and whether the walk is over. The other fields hold either way.
#[derive(Clone, Copy)]
struct Walking {
    have: usize,
    offset: u64,
    over: bool,
}

// The line is laid at the front of the buffer, and written out; a refusal by its number, as `wording` takes it.
pub fn say_refused(out: &mut [u8], verdict: u32, offset: u64)
    requires { length out.old ≡ 131072 }
    ensures { out.new ≡ sets out.old 0 (refused_line verdict offset) }
{
    let used = refused(out, 0, verdict, offset);
    send(out, used, 0);
}

// The records of the first n bytes answered, and their lines written out.
fn walk_first(
    input: &[u8],
    n: usize,
    offset: u64,
    sheet: &[u32],
    head: &mut [u32],
    states: &mut [u32],
    cursors: &mut [u32],
    matched: &mut [u32],
    transitions: &mut [u32],
    items: &mut [u32],
    out: &mut [u8],
) -> Walked
    requires n_in_bounds { (n ≤ length input.now) × (length out.old ≡ 131072) }
    requires ready { Ready sheet.now (table head.old states.old cursors.old matched.old transitions.old) items.old }
    ensures { (result.at ≤ n) × Ready sheet.now (table head.new states.new cursors.new matched.new transitions.new) items.new }
{
    let w = feed_walk(
        &input[..n],
        offset,
        sheet,
        head,
        states,
        cursors,
        matched,
        transitions,
        items,
        out,
    );
    send(out, w.used, 0);
    w
}

// After a turn: nothing is left at hand where the program ends.
fn walked(w: Walked, n: usize, size: usize) -> Walking
    requires { w.at ≤ n }
    ensures { result.have ≤ n }
{
    if w.ends {
        return Walking {
            have: 0,
            offset: w.offset,
            over: true,
        };
    }
    Walking {
        have: n - w.at,
        offset: w.offset,
        over: is_over(w.at, n, size),
    }
}

// Reads on, and answers the records that are whole then.
fn turn_walk(
    input: &mut [u8],
    s: Walking,
    sheet: &[u32],
    head: &mut [u32],
    states: &mut [u32],
    cursors: &mut [u32],
    matched: &mut [u32],
    transitions: &mut [u32],
    items: &mut [u32],
    out: &mut [u8],
) -> Walking
    requires have_in_bounds { (s.have ≤ length input.old) × (length out.old ≡ 131072) }
    requires ready { Ready sheet.now (table head.old states.old cursors.old matched.old transitions.old) items.old }
    ensures { (result.have ≤ length input.old) × Ready sheet.now (table head.new states.new cursors.new matched.new transitions.new) items.new }
{
    let size = input.len();
    let n = fill(input, s.have);
    let w = walk_first(
        input,
        n,
        s.offset,
        sheet,
        head,
        states,
        cursors,
        matched,
        transitions,
        items,
        out,
    );
    shift(input, w.at);
    walked(w, n, size)
}

// Input that ends within a record is refused.
fn say_rest(out: &mut [u8], s: Walking)
    requires { length out.old ≡ 131072 }
{
    if 0 < s.have {
        say_refused(out, 10, s.offset);
    }
}

// The turns are counted as `loading` counts its own.
fn walk(
    input: &mut [u8],
    start: Walking,
    sheet: &[u32],
    head: &mut [u32],
    states: &mut [u32],
    cursors: &mut [u32],
    matched: &mut [u32],
    transitions: &mut [u32],
    items: &mut [u32],
    out: &mut [u8],
)
    requires have_in_bounds { (start.have ≤ length input.old) × (length out.old ≡ 131072) }
    requires ready { Ready sheet.now (table head.old states.old cursors.old matched.old transitions.old) items.old }
{
    let mut s = start;
    for _ in 0..u64::MAX {
        s = turn_walk(
            input,
            s,
            sheet,
            head,
            states,
            cursors,
            matched,
            transitions,
            items,
            out,
        );
        if s.over {
            say_rest(out, s);
            return;
        }
    }
}

// The table is built of the sheet, and the walk goes over both.
pub fn answer(input: &mut [u8], have: usize, m: Making, sheet: &[u32], out: &mut [u8])
    requires have_in_bounds { (have ≤ length input.old) × (length out.old ≡ 131072) }
    requires sheet_value { (sheet_shape sheet.now ≡ true) × (m.ranking ≤ 1) }
{
    let mut head = [0u32; 8];
    let mut states = [0u32; 1536];
    let mut cursors = [0u32; 4096];
    let mut matched = [0u32; 4096];
    let mut transitions = [0u32; 83968];
    let mut items = [0u32; 38];
    building::held::build(
        Sheet { words: sheet },
        m.stamp,
        m.ranking,
        &mut head,
        &mut states,
        &mut cursors,
    );
    let start = Walking {
        have,
        offset: m.offset,
        over: false,
    };
    walk(
        input,
        start,
        sheet,
        &mut head,
        &mut states,
        &mut cursors,
        &mut matched,
        &mut transitions,
        &mut items,
        out,
    );
}
