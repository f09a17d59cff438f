// What changes from one state to another: the properties, and the channels.
// The five lists come apart, as `enter_subject` writes to them.
ghost use Rattle.std.specs.Prelude.{◌≡◌, [], ◌∷◌};
ghost use Rattle.lent.specs.Refusals.{answered, verdict_of};
ghost use Rattle.table.specs.Tables.{table};
ghost use Rattle.channels.specs.Channels.{channels_of};
ghost use Rattle.changeset.specs.Sets.{Lists};
ghost use Rattle.cascade.specs.Calls.{pair_verdict, changed_verdict, changed_in};
ghost use Rattle.cascade.specs.Answers.{channels_told};

use crate::held;
use channels::{ChannelSet, affected_channels};
use lent::Refusal;
use lent::words::copy_into;
use matcher::MatchState;
use matcher::states::{check_state, not_a_state};
use sheet::Sheet;
use table::Table;

// 11, 4 for the old state, 4 for the new one.
fn check_pair(
    sheet: &[u32],
    head: &[u32],
    states: &[u32],
    cursors: &[u32],
    matched: &[u32],
    transitions: &[u32],
    old: MatchState,
    new: MatchState,
) -> Result<(), Refusal>
    ensures { verdict_of result ≡ pair_verdict sheet.now (table head.now states.now cursors.now matched.now transitions.now) old.number old.stamp new.number new.stamp }
{
    let table = Table {
        head,
        states,
        cursors,
        matched,
        transitions,
    };
    check_state(sheet, table, old)?;
    if not_a_state(head, new) {
        return Err(Refusal::NotAState);
    }
    Ok(())
}

// `StyleCascade::changed_properties`
pub fn changed_properties(
    sheet: &[u32],
    head: &[u32; 8],
    states: &[u32],
    cursors: &[u32],
    matched: &[u32],
    transitions: &[u32],
    old: MatchState,
    new: MatchState,
    out: &mut [u16],
) -> Result<usize, Refusal>
    ensures { Lists (changed_verdict sheet.now (table head.now states.now cursors.now matched.now transitions.now) old.number old.stamp new.number new.stamp out.old) (changed_in sheet.now (table head.now states.now cursors.now matched.now transitions.now) old.number new.number) out.old result out.new }
{
    check_pair(sheet, head, states, cursors, matched, transitions, old, new)?;
    let sheet = Sheet { words: sheet };
    let mut list = [0u16; 4096];
    let n = held::changed_properties(
        sheet,
        head,
        states,
        cursors,
        matched,
        transitions,
        old.number,
        new.number,
        &mut list,
    );
    if out.len() < n {
        return Err(Refusal::BufferTooShort);
    }
    copy_into(out, 0, &list[..n]);
    Ok(n)
}

// `StyleCascade::changed_channels`: mask p is that of property p.
pub fn changed_channels(
    sheet: &[u32],
    head: &[u32; 8],
    states: &[u32],
    cursors: &[u32],
    matched: &[u32],
    transitions: &[u32],
    masks: &[u32],
    old: MatchState,
    new: MatchState,
) -> Result<ChannelSet, Refusal>
    ensures { channels_told result ≡ answered (pair_verdict sheet.now (table head.now states.now cursors.now matched.now transitions.now) old.number old.stamp new.number new.stamp) (0 ∷ channels_of masks.now (changed_in sheet.now (table head.now states.now cursors.now matched.now transitions.now) old.number new.number) ∷ []) }
{
    check_pair(sheet, head, states, cursors, matched, transitions, old, new)?;
    let sheet = Sheet { words: sheet };
    let mut list = [0u16; 4096];
    let n = held::changed_properties(
        sheet,
        head,
        states,
        cursors,
        matched,
        transitions,
        old.number,
        new.number,
        &mut list,
    );
    Ok(affected_channels(&list[..n], masks))
}
