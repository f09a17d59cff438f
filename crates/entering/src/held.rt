// For callers that hold the sheet, the table and the subject to their shapes already.
// The table's lists come apart: calls write to some and read others, and a struct that lends each again is no plainer.
ghost use Rattle.std.specs.Prelude.{◌≡◌, true, ◌&&◌, List, ℕ, ◌<◌, length, leb};
ghost use Rattle.selector.specs.Rows.{row_at};
ghost use Rattle.selector.specs.Checks.{row_fits, tags_ascend};
ghost use Rattle.advance.specs.Advancing.{Room};
ghost use Rattle.settle.specs.Settling.{Settles};
ghost use Rattle.table.specs.Tables.{table, states_in, cursors_at};
ghost use Rattle.table.specs.Shape.{table_shape};
ghost use Rattle.table.specs.Entering.{next_state};
ghost use Rattle.entering.specs.Answers.{Enters, Parents};

use advance::held::advance;
use cached::held::cached;
use lent::held::list_of;
use lent::lists::cell;
use linking::held::keep;
use settle::held::settle;
use sheet::Sheet;
use table::layout;

// The number of the subject's state under the parent: of an equal one, or of a new one. Its lists go through two buffers.
fn settle_in(
    sheet: Sheet<'_>,
    head: &mut [u32],
    states: &mut [u32],
    cursors: &mut [u32],
    matched: &mut [u32],
    parent: u32,
    row: &[u32],
    next: &mut [u32],
    listed: &mut [u32],
) -> Option<u32>
    requires sheet_value { Parents sheet.words.now states.old cursors.old parent }
    requires row_value { tags_ascend (row_at 16 row.now 0) ≡ true }
    requires room { Room sheet.words.now (cursors_at states.old cursors.old parent) (cursors_at states.old cursors.old 0) (row_at 16 row.now 0) next.old listed.old }
    ensures { (t : List ℕ) → Settles (table head.old states.old cursors.old matched.old t) (next_state sheet.entry.words.now (table head.old states.old cursors.old matched.old t) parent (row_at 16 row.now 0)) result (table head.new states.new cursors.new matched.new t) }
{
    let ends = layout::CURSOR_ENDS;
    let counts = advance(
        sheet,
        list_of(states, ends, cursors, parent),
        list_of(states, ends, cursors, 0),
        row,
        next,
        listed,
    );
    let next_count = counts.cursors;
    let listed_count = counts.matched;
    settle(
        head,
        states,
        cursors,
        matched,
        &next[..next_count],
        &listed[..listed_count],
    )
}

// Whether both lists are so short that small buffers do.
fn are_few(states: &[u32], cursors: &[u32], parent: u32) -> bool
    ensures { result ≡ (leb (length (cursors_at states.now cursors.now parent)) 48 && leb (length (cursors_at states.now cursors.now 0)) 48) }
{
    let ends = layout::CURSOR_ENDS;
    if list_of(states, ends, cursors, parent).len() > 48 {
        return false;
    }
    list_of(states, ends, cursors, 0).len() <= 48
}

// The same with buffers of its own: small ones where they do, for to clear large ones takes longer than all the rest; else as many words as there can be cursors and rules.
fn settle_next(
    sheet: Sheet<'_>,
    head: &mut [u32],
    states: &mut [u32],
    cursors: &mut [u32],
    matched: &mut [u32],
    parent: u32,
    row: &[u32],
) -> Option<u32>
    requires sheet_value { Parents sheet.words.now states.old cursors.old parent }
    requires row_value { tags_ascend (row_at 16 row.now 0) ≡ true }
    ensures { (t : List ℕ) → Settles (table head.old states.old cursors.old matched.old t) (next_state sheet.entry.words.now (table head.old states.old cursors.old matched.old t) parent (row_at 16 row.now 0)) result (table head.new states.new cursors.new matched.new t) }
{
    if are_few(states, cursors, parent) {
        let mut next = [0u32; 194];
        let mut listed = [0u32; 98];
        return settle_in(
            sheet,
            head,
            states,
            cursors,
            matched,
            parent,
            row,
            &mut next,
            &mut listed,
        );
    }
    let mut next = [0u32; 2050];
    let mut listed = [0u32; 258];
    settle_in(
        sheet,
        head,
        states,
        cursors,
        matched,
        parent,
        row,
        &mut next,
        &mut listed,
    )
}

// Entering the subject of a row under the state with the number `parent`: the child's number, none where there is no room.
pub fn enter_subject(
    sheet: Sheet<'_>,
    head: &mut [u32],
    states: &mut [u32],
    cursors: &mut [u32],
    matched: &mut [u32],
    transitions: &mut [u32],
    parent: u32,
    row: &[u32],
) -> Option<u32>
    requires sheet_value { (table_shape sheet.words.now (table head.old states.old cursors.old matched.old transitions.old) ≡ true) × (parent < states_in head.old) }
    requires row_value { (row_fits 16 row.now 0 ≡ true) × (tags_ascend (row_at 16 row.now 0) ≡ true) }
    ensures { Enters sheet.entry.words.now (table head.old states.old cursors.old matched.old transitions.old) parent row.now result (table head.new states.new cursors.new matched.new transitions.new) }
{
    let children = layout::CHILDREN;
    if let Some(k) = cached(head, states, transitions, parent, row) {
        return Some(cell(transitions, children, k));
    }
    let child = settle_next(sheet, head, states, cursors, matched, parent, row)?;
    keep(head, states, transitions, parent, child, row);
    Some(child)
}
