// For callers that hold the sheet and the table to their shapes already.
ghost use Rattle.std.specs.Prelude.{◌≡◌, true, ◌<◌};
ghost use Rattle.idset.specs.Buffers.{Holds};
ghost use Rattle.table.specs.Tables.{table, states_in};
ghost use Rattle.table.specs.Shape.{table_shape};
ghost use Rattle.cascade.specs.Calls.{changed_in};

use lent::held::list_of;
use lent::words::word;
use sheet::Sheet;
use table::layout;

// The properties that change from one state to another, into the front of `into`; how many there are.
pub fn changed_properties(
    sheet: Sheet<'_>,
    head: &[u32],
    states: &[u32],
    cursors: &[u32],
    matched: &[u32],
    transitions: &[u32],
    old: u32,
    new: u32,
    into: &mut [u16; 4096],
) -> usize
    requires sheet_value { table_shape sheet.words.now (table head.now states.now cursors.now matched.now transitions.now) ≡ true }
    requires bound { (old < states_in head.now) × (new < states_in head.now) }
    ensures { Holds (changed_in sheet.entry.words.now (table head.now states.now cursors.now matched.now transitions.now) old new) into.old result into.new }
{
    let ends = layout::MATCHED_ENDS;
    changes::held::changed(
        sheet,
        word(head, layout::RANKING),
        list_of(states, ends, matched, old),
        list_of(states, ends, matched, new),
        into,
    )
}
