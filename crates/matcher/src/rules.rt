// The matched rules of a state: where they stand, and the list itself. The five lists come apart, as `enter_subject` takes them to write to.
ghost use Rattle.table.specs.Tables.{table};
ghost use Rattle.matcher.specs.Answers.{Part, Rules};

use crate::MatchState;
use crate::states::check_state;
use lent::Refusal;
use lent::lists::{cell, start_of};
use lent::words::wide;
use table::{Table, layout};

// Where the state's matched rules stand in `matched`: from, up to.
pub fn matching_part(
    sheet: &[u32],
    head: &[u32; 8],
    states: &[u32],
    cursors: &[u32],
    matched: &[u32],
    transitions: &[u32],
    state: MatchState,
) -> Result<(u32, u32), Refusal>
    ensures { Part sheet.now (table head.now states.now cursors.now matched.now transitions.now) state.number state.stamp result }
{
    let table = Table {
        head,
        states,
        cursors,
        matched,
        transitions,
    };
    check_state(sheet, table, state)?;
    let ends = layout::MATCHED_ENDS;
    Ok((
        start_of(states, ends, state.number),
        cell(states, ends, state.number),
    ))
}

// `Matcher::matching_rules`: the part of `matched` that holds them; none where the state is refused.
pub fn matching_rules<'a>(
    sheet: &[u32],
    head: &[u32; 8],
    states: &[u32],
    cursors: &[u32],
    matched: &'a [u32],
    transitions: &[u32],
    state: MatchState,
) -> &'a [u32]
    ensures { Rules sheet.now (table head.now states.now cursors.now matched.now transitions.now) state.number state.stamp matched.entry result }
{
    let table = Table {
        head,
        states,
        cursors,
        matched,
        transitions,
    };
    let Ok(()) = check_state(sheet, table, state) else {
        return &matched[0..0];
    };
    let ends = layout::MATCHED_ENDS;
    let from = wide(start_of(states, ends, state.number));
    let to = wide(cell(states, ends, state.number));
    &matched[from..to]
}
