// Whether a state is one of a table.
ghost use Rattle.std.specs.Prelude.{◌≡◌};
ghost use Rattle.lent.specs.Refusals.{verdict_of};
ghost use Rattle.table.specs.Lent.{lent};
ghost use Rattle.table.specs.Calls.{not_a_state, state_verdict};

use crate::MatchState;
use lent::Refusal;
use lent::words::word;
use table::shape::is_table;
use table::{Table, layout};

// 4.
pub fn not_a_state(head: &[u32], state: MatchState) -> bool
    ensures { result ≡ not_a_state head.now state.number state.stamp }
{
    if state.stamp != word(head, layout::STAMP) {
        return true;
    }
    word(head, layout::STATES) <= state.number
}

// 11, 4.
pub fn check_state(sheet: &[u32], table: Table, state: MatchState) -> Result<(), Refusal>
    ensures { verdict_of result ≡ state_verdict sheet.now (lent table.entry) state.number state.stamp }
{
    if !is_table(sheet, table) {
        return Err(Refusal::BrokenShape);
    }
    if not_a_state(table.head, state) {
        return Err(Refusal::NotAState);
    }
    Ok(())
}
