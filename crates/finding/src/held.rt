// Where a state with the same lists stands, and whether there is room for a new one. Nothing is required of the table: a caller that did not test its shape gets what its words say.
ghost use Rattle.std.specs.Prelude.{◌≡◌};
ghost use Rattle.table.specs.Entering.{is_state, number_for, fits, room_for};
ghost use Rattle.finding.specs.States.{state};

use cached::held::same_lists;
use lent::held::list_of;
use lent::words::{wide, word};
use table::layout;

// ---- an equal state

fn is_state(
    states: &[u32],
    cursors: &[u32],
    matched: &[u32],
    next: &[u32],
    listed: &[u32],
    k: u32,
) -> bool
    ensures { result ≡ is_state states.now cursors.now matched.now (state next.now listed.now) k }
{
    let cursor_ends = layout::CURSOR_ENDS;
    let matched_ends = layout::MATCHED_ENDS;
    if !same_lists(list_of(states, cursor_ends, cursors, k), next) {
        return false;
    }
    same_lists(list_of(states, matched_ends, matched, k), listed)
}

// The number of the state with these lists: of the first of n that has them, or else n, the number that a new one gets.
pub fn number_for(
    states: &[u32],
    cursors: &[u32],
    matched: &[u32],
    n: u32,
    next: &[u32],
    listed: &[u32],
) -> u32
    ensures { result ≡ number_for states.now cursors.now matched.now n (state next.now listed.now) }
{
    for k in 0..n {
        if is_state(states, cursors, matched, next, listed, k) {
            return k;
        }
    }
    n
}

// ---- room for a new state

fn fits(room: usize, used: u32, more: usize) -> bool
    ensures { result ≡ fits room used more }
{
    let used = wide(used);
    if room < used {
        return false;
    }
    if room - used < more {
        return false;
    }
    used + more < 4294967296
}

pub fn room_for(
    head: &[u32],
    states: usize,
    cursors: usize,
    matched: usize,
    next: &[u32],
    listed: &[u32],
) -> bool
    ensures { result ≡ room_for head.now states cursors matched (state next.now listed.now) }
{
    let n = word(head, layout::STATES);
    if 512 <= n {
        return false;
    }
    if states < wide(layout::STATE_WORDS) * (wide(n) + 1) {
        return false;
    }
    if !fits(cursors, word(head, layout::CURSORS), next.len()) {
        return false;
    }
    fits(matched, word(head, layout::MATCHED), listed.len())
}
