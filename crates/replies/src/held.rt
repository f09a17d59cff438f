// For callers that hold the sheet and the table to what the calls before have left, and lend room for a line.
// The table's lists come apart: calls write to some and read others, and a struct that lends each again is no plainer.
ghost use Rattle.std.specs.Prelude.{◌≡◌, true, ◌≤◌, ◌<◌, length, take, eqb};
ghost use Rattle.lent.specs.Refusals.{verdict_of};
ghost use Rattle.typed.specs.Typed.{inputs_row};
ghost use Rattle.table.specs.Tables.{table, states_in};
ghost use Rattle.cascade.specs.Calls.{changed_in};
ghost use Rattle.covered.specs.Covered.{Covered};
ghost use Rattle.records.specs.Records.{Narrow};
ghost use Rattle.looking.specs.Calls.{winner_in};
ghost use Rattle.selector.specs.Rows.{row_at};
ghost use Rattle.selector.specs.Checks.{row_fits, tags_ascend};
ghost use Rattle.wording.specs.Lines.{changed_line, winner_line, Said, Room};
ghost use Rattle.replies.specs.Walking.{walking, subject_of, printed, item_fault, with_fit};
ghost use Rattle.replies.specs.Memory.{Ready, Replies};
ghost use Rattle.replies.specs.Steps.{enters_by, child_in, lost_in, lost_either, ItemsTaken, EntersIf, Tellable, told_line};

use crate::Replied;
use cascade::held::changed_properties;
use entering::held::enter_subject;
use lent::Refusal;
use lent::words::{copy_into, widen_into, word};
use looking::held::winning_source;
use matcher::held::matching_rules;
use owned::SelectorInputsOwned;
use records::Record;
use records::held::{half, item_over, put_item};
use sheet::Sheet;
use table::layout;
use typed::SelectorInputs;

// ---- 9

// Refused by 10 as the record at this offset.
fn take_item(items: &mut [u32], which: u32, id: u32, offset: u64) -> Result<(), Refusal>
    ensures { (verdict_of result ≡ item_fault items.old which) × (items.new ≡ with_fit items.old which id) }
{
    if 3 < which {
        return Err(Refusal::BadRecord(offset));
    }
    if item_over(items, 16, which) {
        return Err(Refusal::OverSize);
    }
    put_item(items, 16, which, id);
    Ok(())
}

// ---- 10

// The row of the subject with these items, sorted and made unique.
fn owned_row(items: &[u32]) -> [u32; 38]
    ensures { result ≡ inputs_row (subject_of items.now) }
{
    let x = SelectorInputs::from_row(items, 0);
    let t = x.type_tag;
    let p = x.part_tag;
    let c = x.classes;
    let s = x.pseudos;
    match SelectorInputsOwned::with_part(t, p, c, x.class_count, s, x.pseudo_count) {
        Ok(owned) => owned.inputs.row(),
        Err(_) => SelectorInputs::empty().row(),
    }
}

// Of an enter alone: other records have no subject.
fn subject_row(items: &[u32], kind: u32) -> [u32; 38]
    ensures { kind ≡ 10 → result ≡ inputs_row (subject_of items.now) }
{
    if kind == 10 {
        return owned_row(items);
    }
    [0u32; 38]
}

// The one record that writes the table, unless it is refused: its child.
fn take_enter(
    sheet: &[u32],
    head: &mut [u32],
    states: &mut [u32],
    cursors: &mut [u32],
    matched: &mut [u32],
    transitions: &mut [u32],
    kind: u32,
    parent: u32,
    checked: Result<(), Refusal>,
    row: &[u32],
) -> Result<Option<u32>, Refusal>
    requires covered { Covered sheet.now (table head.old states.old cursors.old matched.old transitions.old) }
    requires parent_bound { enters_by kind (verdict_of checked) ≡ true → (parent < states_in head.old) × (row_fits 16 row.now 0 ≡ true) × (tags_ascend (row_at 16 row.now 0) ≡ true) }
    ensures { EntersIf sheet.now (table head.old states.old cursors.old matched.old transitions.old) kind parent (verdict_of checked) row.now result (table head.new states.new cursors.new matched.new transitions.new) }
{
    checked?;
    if kind != 10 {
        return Ok(None);
    }
    let sheet = Sheet { words: sheet };
    let Some(child) = enter_subject(
        sheet,
        head,
        states,
        cursors,
        matched,
        transitions,
        parent,
        row,
    ) else {
        return Err(Refusal::NoRoom);
    };
    Ok(Some(child))
}

// ---- 11

// The changed properties as words; how many.
fn changed_words(
    sheet: &[u32],
    head: &[u32],
    states: &[u32],
    cursors: &[u32],
    matched: &[u32],
    transitions: &[u32],
    old: u32,
    new: u32,
    into: &mut [u32],
) -> usize
    requires covered { Covered sheet.now (table head.now states.now cursors.now matched.now transitions.now) }
    requires bound { (old < states_in head.now) × (new < states_in head.now) × (length into.old ≡ 4096) }
    ensures { (result ≡ length (changed_in sheet.now (table head.now states.now cursors.now matched.now transitions.now) old new)) × (result ≤ 4096) × (take result into.new ≡ changed_in sheet.now (table head.now states.now cursors.now matched.now transitions.now) old new) }
{
    let sheet = Sheet { words: sheet };
    let mut list = [0u16; 4096];
    let n = changed_properties(
        sheet,
        head,
        states,
        cursors,
        matched,
        transitions,
        old,
        new,
        &mut list,
    );
    widen_into(into, 0, &list[..n]);
    n
}

fn tell_changed(
    sheet: &[u32],
    head: &[u32],
    states: &[u32],
    cursors: &[u32],
    matched: &[u32],
    transitions: &[u32],
    old: u32,
    new: u32,
    out: &mut [u8],
    at: usize,
) -> usize
    requires covered { Covered sheet.now (table head.now states.now cursors.now matched.now transitions.now) × (old < states_in head.now) × (new < states_in head.now) }
    requires room { Room at out.old }
    ensures { Said (changed_line (changed_in sheet.now (table head.now states.now cursors.now matched.now transitions.now) old new)) out.old at result out.new }
{
    let mut list = [0u32; 4096];
    let n = changed_words(
        sheet,
        head,
        states,
        cursors,
        matched,
        transitions,
        old,
        new,
        &mut list,
    );
    wording::held::changed(out, at, &list[..n])
}

// ---- 12

fn tell_winner(
    sheet: &[u32],
    head: &[u32],
    states: &[u32],
    cursors: &[u32],
    matched: &[u32],
    transitions: &[u32],
    state: u32,
    property: u32,
    out: &mut [u8],
    at: usize,
) -> usize
    requires covered { Covered sheet.now (table head.now states.now cursors.now matched.now transitions.now) × (state < states_in head.now) × (property < 65536) }
    requires room { Room at out.old }
    ensures { Said (winner_line sheet.now property (winner_in sheet.now (table head.now states.now cursors.now matched.now transitions.now) state property)) out.old at result out.new }
{
    let sheet = Sheet { words: sheet };
    let best = winning_source(
        sheet,
        head,
        states,
        cursors,
        matched,
        transitions,
        state,
        half(property),
    );
    wording::held::winner(out, at, property, best)
}

// ---- any

fn check_state(head: &[u32], state: u32) -> Result<(), Refusal>
    ensures { verdict_of result ≡ lost_in head.now state }
{
    if state < word(head, layout::STATES) {
        return Ok(());
    }
    Err(Refusal::NotAState)
}

fn check_states(head: &[u32], old: u32, new: u32) -> Result<(), Refusal>
    ensures { verdict_of result ≡ lost_either head.now old new }
{
    check_state(head, old)?;
    check_state(head, new)
}

// The items after a record at this offset, and its refusal as far as it is known before the call.
fn take_items(head: &[u32], items: &mut [u32], item: Record, offset: u64) -> Result<(), Refusal>
    requires { length items.old ≡ 38 }
    ensures { ItemsTaken head.now items.old item (verdict_of result) items.new }
{
    let kind = item.kind;
    match kind {
        9 => take_item(items, item.first, item.second, offset),
        10 => {
            copy_into(items, 0, &[0u32; 38]);
            check_state(head, item.first)
        }
        11 => check_states(head, item.first, item.second),
        12 => check_state(head, item.first),
        _ => Err(Refusal::BadRecord(offset)),
    }
}

// The line of a record whose call is made.
fn tell(
    sheet: &[u32],
    head: &[u32],
    states: &[u32],
    cursors: &[u32],
    matched: &[u32],
    transitions: &[u32],
    item: Record,
    entered: Result<Option<u32>, Refusal>,
    out: &mut [u8],
    at: usize,
    offset: u64,
) -> usize
    requires tellable { Tellable sheet.now (table head.now states.now cursors.now matched.now transitions.now) item (verdict_of entered) }
    requires room { Room at out.old }
    ensures { Said (printed (verdict_of entered) offset (told_line sheet.now (table head.now states.now cursors.now matched.now transitions.now) item (child_in entered))) out.old at result out.new }
{
    match entered {
        Err(refusal) => wording::held::refused(out, at, refusal.number(), offset),
        Ok(Some(child)) => wording::held::state(
            out,
            at,
            child,
            matching_rules(states, matched, child),
        ),
        Ok(None) => match item.kind {
            11 => tell_changed(
                sheet,
                head,
                states,
                cursors,
                matched,
                transitions,
                item.first,
                item.second,
                out,
                at,
            ),
            12 => tell_winner(
                sheet,
                head,
                states,
                cursors,
                matched,
                transitions,
                item.first,
                item.second,
                out,
                at,
            ),
            _ => at,
        },
    }
}

// Whether the program ends after such a record.
fn ends(entered: Result<Option<u32>, Refusal>) -> bool
    ensures { result ≡ eqb (verdict_of entered) 10 }
{
    match entered {
        Err(Refusal::BadRecord(_)) => true,
        _ => false,
    }
}

// A record after kind 8: its line goes into `out` at `at`.
pub fn reply(
    sheet: &[u32],
    head: &mut [u32],
    states: &mut [u32],
    cursors: &mut [u32],
    matched: &mut [u32],
    transitions: &mut [u32],
    items: &mut [u32],
    item: Record,
    out: &mut [u8],
    at: usize,
    offset: u64,
) -> Replied
    requires ready { Ready sheet.now (table head.old states.old cursors.old matched.old transitions.old) items.old }
    requires room { Room at out.old }
    requires narrow { Narrow item }
    ensures { Replies (walking sheet.now (table head.old states.old cursors.old matched.old transitions.old) items.old) offset item out.old at result out.new (table head.new states.new cursors.new matched.new transitions.new) items.new }
{
    let row = subject_row(items, item.kind);
    let checked = take_items(head, items, item, offset);
    let entered = take_enter(
        sheet,
        head,
        states,
        cursors,
        matched,
        transitions,
        item.kind,
        item.first,
        checked,
        &row,
    );
    let used = tell(
        sheet,
        head,
        states,
        cursors,
        matched,
        transitions,
        item,
        entered,
        out,
        at,
        offset,
    );
    Replied {
        used,
        ends: ends(entered),
    }
}
