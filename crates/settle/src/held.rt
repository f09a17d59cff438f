// The state that entering writes. Nothing is required of the table, as in `finding`.
// The table's lists come apart: calls write to some and read others, and a struct that lends each again is no plainer.
ghost use Rattle.std.specs.Prelude.{◌≡◌, true, List, ℕ, length};
ghost use Rattle.table.specs.Tables.{table};
ghost use Rattle.table.specs.Entering.{room_for, grown};
ghost use Rattle.finding.specs.States.{state};
ghost use Rattle.settle.specs.Settling.{Settles};

use finding::held::{number_for, room_for};
use lent::lists::address;
use lent::words::{copy_into, wide, word};
use table::layout;

fn grow(
    head: &mut [u32],
    states: &mut [u32],
    cursors: &mut [u32],
    matched: &mut [u32],
    next: &[u32],
    listed: &[u32],
)
    requires { room_for head.old (length states.old) (length cursors.old) (length matched.old) (state next.now listed.now) ≡ true }
    ensures { (t : List ℕ) → table head.new states.new cursors.new matched.new t ≡ grown (table head.old states.old cursors.old matched.old t) (state next.now listed.now) }
{
    let rows = layout::CURSOR_ENDS;
    let n = word(head, layout::STATES);
    let c = word(head, layout::CURSORS);
    let m = word(head, layout::MATCHED);
    let count = n + 1;
    let cursor_end = c + next.len() as u32;
    let matched_end = m + listed.len() as u32;
    copy_into(cursors, wide(c), next);
    copy_into(matched, wide(m), listed);
    copy_into(states, address(rows, n), &[cursor_end, matched_end, 0]);
    copy_into(head, layout::STATES, &[count, cursor_end, matched_end]);
}

// The number of the state with these lists: of an equal one, or of a new one. None where there is no room.
pub fn settle(
    head: &mut [u32],
    states: &mut [u32],
    cursors: &mut [u32],
    matched: &mut [u32],
    next: &[u32],
    listed: &[u32],
) -> Option<u32>
    ensures { (t : List ℕ) → Settles (table head.old states.old cursors.old matched.old t) (state next.now listed.now) result (table head.new states.new cursors.new matched.new t) }
{
    let n = word(head, layout::STATES);
    let k = number_for(states, cursors, matched, n, next, listed);
    if k < n {
        return Some(k);
    }
    if !room_for(
        head,
        states.len(),
        cursors.len(),
        matched.len(),
        next,
        listed,
    ) {
        return None;
    }
    grow(head, states, cursors, matched, next, listed);
    Some(k)
}
