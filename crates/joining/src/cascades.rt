// The refusals of a pushed cascade; and the next source index after it.
ghost use Rattle.std.specs.Prelude.{◌≡◌, ◌+◌, get_or, ltb};
ghost use Rattle.theory.specs.Lists.{spread};
ghost use Rattle.lent.specs.Pool.{ends_in};
ghost use Rattle.lent.specs.Refusals.{verdict_of};
ghost use Rattle.sheet.specs.Sheets.{is_nil, sheet_of};
ghost use Rattle.given.specs.Pushing.{sums_over, indexes_of, indexes_over, cascade_verdict, largest};

use given::held::all_entries;
use lent::Refusal;
use lent::lists::{Column, cell};
use lent::words::{wide, word};
use sheet::layout;
use sheet::shape::is_sheet;

// Whether the two sheets' counts at word `at` come to more than `limit`.
fn sum_over(sheet: &[u32], other: &[u32], at: usize, limit: usize) -> bool
    ensures { result ≡ ltb limit (get_or sheet.now at 0 + get_or other.now at 0) }
{
    limit < wide(word(sheet, at)) + wide(word(other, at))
}

fn sums_over(sheet: &[u32], other: &[u32]) -> bool
    ensures { result ≡ sums_over sheet.now other.now }
{
    if sum_over(sheet, other, layout::RULES, 256) {
        return true;
    }
    if sum_over(sheet, other, layout::STYLES, 64) {
        return true;
    }
    if sum_over(sheet, other, layout::IDS, 8192) {
        return true;
    }
    4096 < all_entries(sheet) + all_entries(other)
}

// The largest word of the column's first n.
fn largest_in(sheet: &[u32], column: Column, n: u32) -> u32
    ensures { result ≡ largest (spread (ends_in sheet.now column.base column.stride) 0 n) }
{
    let mut most = 0u32;
    for k in 0..n {
        most = most.max(cell(sheet, column, k));
    }
    most
}

// The largest source index of a sheet; 0 where there is none.
pub fn largest_index(sheet: &[u32]) -> u32
    ensures { result ≡ largest (indexes_of (sheet_of sheet.now)) }
{
    let styles = layout::STYLE_SOURCES;
    let rules = layout::RULE_SOURCES;
    let a = largest_in(sheet, styles, word(sheet, layout::STYLES));
    let b = largest_in(sheet, rules, word(sheet, layout::RULES));
    a.max(b)
}

// Whether a sheet has neither direct styles nor rules.
pub fn is_bare(sheet: &[u32]) -> bool
    ensures { result ≡ is_nil (indexes_of (sheet_of sheet.now)) }
{
    if word(sheet, layout::STYLES) != 0 {
        return false;
    }
    word(sheet, layout::RULES) == 0
}

fn indexes_over(sheet: &[u32], other: &[u32]) -> bool
    ensures { result ≡ indexes_over sheet.now other.now }
{
    if is_bare(other) {
        return false;
    }
    65535 < wide(word(sheet, layout::NEXT_SOURCE)) + wide(largest_index(other))
}

// "Pushing a cascade 11, 2, 7".
pub fn check_cascade(sheet: &[u32], other: &[u32]) -> Result<(), Refusal>
    ensures { verdict_of result ≡ cascade_verdict sheet.now other.now }
{
    if !is_sheet(sheet) {
        return Err(Refusal::BrokenShape);
    }
    if !is_sheet(other) {
        return Err(Refusal::BrokenShape);
    }
    if sums_over(sheet, other) {
        return Err(Refusal::OverSize);
    }
    if indexes_over(sheet, other) {
        return Err(Refusal::NoSourceIndex);
    }
    Ok(())
}
