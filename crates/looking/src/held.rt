// For callers that hold the sheet and the table to their shapes already.
ghost use Rattle.std.specs.Prelude.{◌≡◌, true, ◌<◌};
ghost use Rattle.table.specs.Tables.{table, ranking_in, states_in};
ghost use Rattle.table.specs.Shape.{table_shape};
ghost use Rattle.winners.specs.Best.{Stands};
ghost use Rattle.looking.specs.Calls.{winner_in};

use lent::held::list_of;
use lent::words::word;
use sheet::Sheet;
use table::layout;
use winners::Best;
use winners::held::winner;

// The winner of a property in a state.
pub fn winning_source(
    sheet: Sheet<'_>,
    head: &[u32],
    states: &[u32],
    cursors: &[u32],
    matched: &[u32],
    transitions: &[u32],
    number: u32,
    property: u16,
) -> Option<Best>
    requires sheet_value { table_shape sheet.words.now (table head.now states.now cursors.now matched.now transitions.now) ≡ true }
    requires number_bound { number < states_in head.now }
    ensures { Stands sheet.entry.words.now (ranking_in head.now) property (winner_in sheet.entry.words.now (table head.now states.now cursors.now matched.now transitions.now) number property) result }
{
    let ends = layout::MATCHED_ENDS;
    let rules = list_of(states, ends, matched, number);
    winner(sheet, word(head, layout::RANKING), rules, property as u32)
}
