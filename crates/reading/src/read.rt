// What is read out of a sheet: `StyleCascade::is_empty`, `MatchRule` by number, direct styles.
ghost use Rattle.std.specs.Prelude.{◌≡◌, [], ◌∷◌, suc, ◌+◌, ◌≤◌, get_or, Ok, Some};
ghost use Rattle.std.proofs.Math.ListN.{get_elem?};
ghost use Rattle.std.proofs.Math.Option.{some};
ghost use Rattle.theory.specs.Weight.{weight_of};
ghost use Rattle.lent.specs.Refusals.{answered, verdict_of};
ghost use Rattle.selector.specs.Weighing.{weighing_told, weight_told};
ghost use Rattle.sheet.specs.Layout.{rules_in, styles_in};
ghost use Rattle.sheet.specs.Sheets.{part_at, rule_at, style_at, entry_at, counts_for};
ghost use Rattle.reading.specs.Reading.{counting_told, emptiness_told, rule_told, style_told, entry_told, combinator_told, sheet_verdict, rule_verdict, weight_verdict, emptiness_of, rule_numbers, style_numbers, entry_numbers, combinator_numbers, style_there, StepRead};

use crate::{DirectStyle, MatchRule, StyleEntry};
use lent::Refusal;
use lent::lists::{cell, start_of};
use lent::words::{wide, word};
use selector::{SelectorCombinator, Specificity};
use sheet::shape::{is_sheet, list_length, step_place};
use sheet::{Sheet, layout};
use steps::SelectorStep;
use weighed::held::weight;

// 11.
fn check_sheet(sheet: &[u32]) -> Result<(), Refusal>
    ensures { verdict_of result ≡ sheet_verdict sheet.now }
{
    if !is_sheet(sheet) {
        return Err(Refusal::BrokenShape);
    }
    Ok(())
}

// 11, then 9.
fn check_rule(sheet: &[u32], number: u32) -> Result<(), Refusal>
    ensures { verdict_of result ≡ rule_verdict sheet.now number }
{
    check_sheet(sheet)?;
    if word(sheet, layout::RULES) <= number {
        return Err(Refusal::NoSuchRule);
    }
    Ok(())
}

pub fn rule_count(sheet: &[u32]) -> Result<u32, Refusal>
    ensures { counting_told result ≡ answered (sheet_verdict sheet.now) (0 ∷ rules_in sheet.now ∷ []) }
{
    check_sheet(sheet)?;
    Ok(word(sheet, layout::RULES))
}

pub fn style_count(sheet: &[u32]) -> Result<u32, Refusal>
    ensures { counting_told result ≡ answered (sheet_verdict sheet.now) (0 ∷ styles_in sheet.now ∷ []) }
{
    check_sheet(sheet)?;
    Ok(word(sheet, layout::STYLES))
}

// `StyleCascade::is_empty`
pub fn is_empty(sheet: &[u32]) -> Result<bool, Refusal>
    ensures { emptiness_told result ≡ emptiness_of sheet.now }
{
    check_sheet(sheet)?;
    if word(sheet, layout::STYLES) != 0 {
        return Ok(false);
    }
    Ok(word(sheet, layout::RULES) == 0)
}

// Rule by number: origin, source index, order, and how many steps and entries it has.
pub fn rule(sheet: &[u32], number: u32) -> Result<MatchRule, Refusal>
    ensures { rule_told result ≡ answered (rule_verdict sheet.now number) (rule_numbers (rule_at sheet.now number)) }
{
    check_rule(sheet, number)?;
    Ok(match_rule(sheet, number))
}

fn match_rule(sheet: &[u32], number: u32) -> MatchRule
    ensures { rule_told (Ok result) ≡ rule_numbers (rule_at sheet.now number) }
{
    MatchRule {
        origin: cell(sheet, layout::RULE_ORIGINS, number),
        source_index: cell(sheet, layout::RULE_SOURCES, number),
        order: cell(sheet, layout::RULE_ORDERS, number),
        step_count: list_length(sheet, layout::RULE_STEP_ENDS, number),
        entry_count: list_length(sheet, layout::RULE_ENTRY_ENDS, number),
    }
}

// Step i of a rule.
pub fn rule_step(sheet: &[u32], number: u32, i: u32) -> Result<Option<SelectorStep>, Refusal>
    ensures { StepRead sheet.now number i result }
{
    let steps = layout::RULE_STEP_ENDS;
    check_rule(sheet, number)?;
    if list_length(sheet, steps, number) <= i {
        return Ok(None);
    }
    let at = step_place(start_of(sheet, steps, number) + i);
    Ok(Some(SelectorStep::from_row(sheet, at)))
}

// The combinator between steps i and i + 1 of a rule.
pub fn rule_combinator(
    sheet: &[u32],
    number: u32,
    i: u32,
) -> Result<Option<SelectorCombinator>, Refusal>
    ensures { combinator_told result ≡ answered (rule_verdict sheet.now number) (combinator_numbers (get_elem? (rule_at sheet.now number).selector (suc i))) }
{
    let steps = layout::RULE_STEP_ENDS;
    check_rule(sheet, number)?;
    let n = list_length(sheet, steps, number);
    if n <= i {
        return Ok(None);
    }
    let next = i + 1;
    if n <= next {
        return Ok(None);
    }
    let s = start_of(sheet, steps, number) + next;
    Ok(Some(combinator_before(sheet, s)))
}

fn combinator_before(sheet: &[u32], s: u32) -> SelectorCombinator
    ensures { combinator_told (Ok (Some result)) ≡ combinator_numbers (some (part_at sheet.now s)) }
{
    SelectorCombinator::from(cell(sheet, layout::STEP_COMBINATORS, s))
}

// Entry e of the pool at `base`.
fn entry_at(sheet: &[u32], base: usize, room: usize, e: u32) -> StyleEntry
    requires { (base ≤ 100000) × (room ≤ 4096) × (get_or sheet.now (base + e) 0 ≤ 65535) }
    ensures { entry_told (Ok (Some result)) ≡ entry_numbers (some (entry_at sheet.now base room e)) }
{
    let at = base + wide(e);
    StyleEntry {
        property: word(sheet, at) as u16,
        kind: word(sheet, at + room),
        number: word(sheet, at + 2 * room),
    }
}

// Entry i of a rule.
pub fn rule_entry(sheet: &[u32], number: u32, i: u32) -> Result<Option<StyleEntry>, Refusal>
    ensures { entry_told result ≡ answered (rule_verdict sheet.now number) (entry_numbers (get_elem? (rule_at sheet.now number).entries i)) }
{
    let entries = layout::RULE_ENTRY_ENDS;
    check_rule(sheet, number)?;
    if list_length(sheet, entries, number) <= i {
        return Ok(None);
    }
    Ok(Some(entry_at(
        sheet,
        layout::ENTRY,
        layout::ENTRY_ROOM,
        start_of(sheet, entries, number) + i,
    )))
}

// A direct style by number. 01 has no refusal for its number: one that is not there is nothing.
pub fn style(sheet: &[u32], number: u32) -> Result<Option<DirectStyle>, Refusal>
    ensures { style_told result ≡ style_there sheet.now number (style_numbers (style_at sheet.now number)) }
{
    check_sheet(sheet)?;
    if word(sheet, layout::STYLES) <= number {
        return Ok(None);
    }
    Ok(Some(direct_style(sheet, number)))
}

fn direct_style(sheet: &[u32], number: u32) -> DirectStyle
    ensures { style_told (Ok (Some result)) ≡ style_numbers (style_at sheet.now number) }
{
    DirectStyle {
        origin: cell(sheet, layout::STYLE_ORIGINS, number),
        source_index: cell(sheet, layout::STYLE_SOURCES, number),
        entry_count: list_length(sheet, layout::STYLE_ENTRY_ENDS, number),
    }
}

// Entry i of a direct style.
pub fn style_entry(sheet: &[u32], number: u32, i: u32) -> Result<Option<StyleEntry>, Refusal>
    ensures { entry_told result ≡ style_there sheet.now number (entry_numbers (get_elem? (style_at sheet.now number).entries i)) }
{
    let entries = layout::STYLE_ENTRY_ENDS;
    check_sheet(sheet)?;
    if word(sheet, layout::STYLES) <= number {
        return Ok(None);
    }
    if list_length(sheet, entries, number) <= i {
        return Ok(None);
    }
    Ok(Some(entry_at(
        sheet,
        layout::STYLE_ENTRY,
        layout::STYLE_ENTRY_ROOM,
        start_of(sheet, entries, number) + i,
    )))
}

// The weight of a rule, in ranking 0 or 1.
pub fn rule_weight(sheet: &[u32], number: u32, ranking: u32) -> Result<Specificity, Refusal>
    ensures { weighing_told result ≡ answered (weight_verdict sheet.now number ranking) (weight_told (weight_of ranking (counts_for (rule_at sheet.now number).selector))) }
{
    check_rule(sheet, number)?;
    if 1 < ranking {
        return Err(Refusal::CodeOutOfRange);
    }
    Ok(weight(Sheet { words: sheet }, number, ranking))
}
