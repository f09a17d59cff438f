// Entering a subject under a state.
// The five lists come apart, as `enter_subject` writes to them.
ghost use Rattle.std.specs.Prelude.{◌≡◌};
ghost use Rattle.lent.specs.Refusals.{verdict_of};
ghost use Rattle.typed.specs.Typed.{inputs_row};
ghost use Rattle.table.specs.Tables.{table};
ghost use Rattle.table.specs.Lent.{lent};
ghost use Rattle.entering.specs.Answers.{front_verdict, Enter};

use crate::held;
use lent::Refusal;
use matcher::MatchState;
use matcher::states::check_state;
use selector::held::{row_ascends, row_fits};
use sheet::Sheet;
use table::Table;
use typed::SelectorInputs;

// 11, 4, 2, 1.
fn check_front(sheet: &[u32], table: Table, parent: MatchState, row: &[u32]) -> Result<(), Refusal>
    ensures { verdict_of result ≡ front_verdict sheet.now (lent table.entry) parent.number parent.stamp row.now }
{
    check_state(sheet, table, parent)?;
    if !row_fits(row, 0, 16) {
        return Err(Refusal::OverSize);
    }
    if !row_ascends(row, 0) {
        return Err(Refusal::NotAscending);
    }
    Ok(())
}

// `Matcher::enter_subject`
pub fn enter_subject(
    sheet: &[u32],
    head: &mut [u32; 8],
    states: &mut [u32],
    cursors: &mut [u32],
    matched: &mut [u32],
    transitions: &mut [u32],
    parent: MatchState,
    inputs: SelectorInputs,
) -> Result<MatchState, Refusal>
    ensures { Enter sheet.now (table head.old states.old cursors.old matched.old transitions.old) parent.number parent.stamp (inputs_row inputs) result (table head.new states.new cursors.new matched.new transitions.new) }
{
    let row = inputs.row();
    let table = Table {
        head,
        states,
        cursors,
        matched,
        transitions,
    };
    check_front(sheet, table, parent, &row)?;
    let sheet = Sheet { words: sheet };
    let number = held::enter_subject(
        sheet,
        head,
        states,
        cursors,
        matched,
        transitions,
        parent.number,
        &row,
    )
    .ok_or(Refusal::NoRoom)?;
    Ok(MatchState {
        number,
        stamp: parent.stamp,
    })
}
