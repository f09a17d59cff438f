// The winner of a property, and what it says.
// The five lists come apart, as `enter_subject` writes to them.
ghost use Rattle.std.specs.Prelude.{◌≡◌};
ghost use Rattle.lent.specs.Refusals.{answered};
ghost use Rattle.style.specs.Looking.{kind_told, kind_of, plain_told, plain_of, resource_told, resource_of};
ghost use Rattle.table.specs.Tables.{table};
ghost use Rattle.table.specs.Calls.{state_verdict};
ghost use Rattle.looking.specs.Calls.{winner_in, entry_in};
ghost use Rattle.looking.specs.Answers.{winning_told, winner_told};
ghost use Rattle.looking.specs.Shown.{Shows};

use crate::{StyleSourceRef, held};
use lent::Refusal;
use matcher::MatchState;
use matcher::states::check_state;
use sheet::Sheet;
use style::held::{kind_of, plain_of, resource_of};
use style::{StyleValueKind, StyleValueRef};
use table::Table;
use winners::held::entry;
use winners::{Found, Source};

// `StyleCascade::winning_source_for_id`
pub fn winning_source_for_id(
    sheet: &[u32],
    head: &[u32; 8],
    states: &[u32],
    cursors: &[u32],
    matched: &[u32],
    transitions: &[u32],
    state: MatchState,
    property: u16,
) -> Result<Option<StyleSourceRef>, Refusal>
    ensures { winning_told result ≡ answered (state_verdict sheet.now (table head.now states.now cursors.now matched.now transitions.now) state.number state.stamp) (winner_told sheet.now (winner_in sheet.now (table head.now states.now cursors.now matched.now transitions.now) state.number property)) }
{
    let table = Table {
        head,
        states,
        cursors,
        matched,
        transitions,
    };
    check_state(sheet, table, state)?;
    let sheet = Sheet { words: sheet };
    let best = held::winning_source(
        sheet,
        head,
        states,
        cursors,
        matched,
        transitions,
        state.number,
        property,
    );
    let Some(best) = best else {
        return Ok(None);
    };
    let index = best.key.source_index;
    Ok(Some(match best.source {
        Source::Style(d) => StyleSourceRef::Direct(d, index),
        Source::Rule(r) => StyleSourceRef::Rule(r, index),
    }))
}

// The winner's own entry: 11, 4.
fn winning_entry(
    sheet: &[u32],
    head: &[u32; 8],
    states: &[u32],
    cursors: &[u32],
    matched: &[u32],
    transitions: &[u32],
    state: MatchState,
    property: u16,
) -> Result<Option<Found>, Refusal>
    ensures { Shows sheet.now (table head.now states.now cursors.now matched.now transitions.now) state.number state.stamp property result }
{
    let table = Table {
        head,
        states,
        cursors,
        matched,
        transitions,
    };
    check_state(sheet, table, state)?;
    let sheet = Sheet { words: sheet };
    let best = held::winning_source(
        sheet,
        head,
        states,
        cursors,
        matched,
        transitions,
        state.number,
        property,
    );
    Ok(entry(sheet, best, property as u32))
}

// `StyleCascade::value_kind`
pub fn value_kind(
    sheet: &[u32],
    head: &[u32; 8],
    states: &[u32],
    cursors: &[u32],
    matched: &[u32],
    transitions: &[u32],
    state: MatchState,
    property: u16,
) -> Result<Option<StyleValueKind>, Refusal>
    ensures { kind_told result ≡ answered (state_verdict sheet.now (table head.now states.now cursors.now matched.now transitions.now) state.number state.stamp) (kind_of (entry_in sheet.now (table head.now states.now cursors.now matched.now transitions.now) state.number property)) }
{
    let found = winning_entry(
        sheet,
        head,
        states,
        cursors,
        matched,
        transitions,
        state,
        property,
    )?;
    let Some(found) = found else {
        return Ok(None);
    };
    Ok(Some(kind_of(found.kind, found.number)))
}

// `StyleCascade::get_entry_ref`: a value as a value, a resource as a resource, an expression as nothing; the next source is not tried.
pub fn get_entry_ref(
    sheet: &[u32],
    head: &[u32; 8],
    states: &[u32],
    cursors: &[u32],
    matched: &[u32],
    transitions: &[u32],
    state: MatchState,
    property: u16,
) -> Result<Option<StyleValueRef>, Refusal>
    ensures { plain_told result ≡ answered (state_verdict sheet.now (table head.now states.now cursors.now matched.now transitions.now) state.number state.stamp) (plain_of (entry_in sheet.now (table head.now states.now cursors.now matched.now transitions.now) state.number property)) }
{
    let found = winning_entry(
        sheet,
        head,
        states,
        cursors,
        matched,
        transitions,
        state,
        property,
    )?;
    let Some(found) = found else {
        return Ok(None);
    };
    Ok(plain_of(found.kind, found.number))
}

// The key of a winning resource.
pub fn resource_key(
    sheet: &[u32],
    head: &[u32; 8],
    states: &[u32],
    cursors: &[u32],
    matched: &[u32],
    transitions: &[u32],
    state: MatchState,
    property: u16,
) -> Result<Option<u32>, Refusal>
    ensures { resource_told result ≡ answered (state_verdict sheet.now (table head.now states.now cursors.now matched.now transitions.now) state.number state.stamp) (resource_of (entry_in sheet.now (table head.now states.now cursors.now matched.now transitions.now) state.number property)) }
{
    let found = winning_entry(
        sheet,
        head,
        states,
        cursors,
        matched,
        transitions,
        state,
        property,
    )?;
    let Some(found) = found else {
        return Ok(None);
    };
    Ok(resource_of(found.kind, found.number))
}
