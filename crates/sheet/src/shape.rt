// The test of a sheet's shape, clause by clause.
// Counts are the used counts that stand in the words themselves (01: "flat lent tables with used counts").
ghost use Rattle.std.specs.Prelude.{◌≡◌, true, ◌&&◌, ◌+◌, ◌-◌, ◌≤◌, ◌<◌, get_or, leb};
ghost use Rattle.theory.specs.Lists.{ascends, at_most, sum_below};
ghost use Rattle.lent.specs.All.{all_below};
ghost use Rattle.lent.specs.Pool.{ends_in, start_of};
ghost use Rattle.selector.specs.Rows.{words_from};
ghost use Rattle.sheet.specs.Layout.{step_place};
ghost use Rattle.sheet.specs.Shape.{room_enough, rule_counts_fit, entries_fit, style_counts_fit, counts_fit, end_to_end, list_fits, properties_ascend, first_untied, rule_lists_fit, rule_fine, style_fine, type_flag_fits, part_flag_fits, classes_fit, pseudos_fit, step_fine, pool_fits, ids_at, ends_at, ids_meet, ends_meet, rows_fine, pools_fit, sheet_shape};

use crate::layout;
use idset::{at_most, is_ascending};
use lent::held::{list_of, part, rest};
use lent::lists::{Column, cell, start_of};
use lent::words::{wide, word};
use selector::held::ids;

fn room_enough(sheet: &[u32]) -> bool
    ensures { result ≡ room_enough sheet.now }
{
    layout::SHEET_WORDS <= sheet.len()
}

// Word `at` is at most `limit`.
fn word_fits(sheet: &[u32], at: usize, limit: u32) -> bool
    ensures { result ≡ leb (get_or sheet.now at 0) limit }
{
    word(sheet, at) <= limit
}

fn rule_counts_fit(sheet: &[u32]) -> bool
    ensures { result ≡ rule_counts_fit sheet.now }
{
    if !word_fits(sheet, layout::RULES, 256) {
        return false;
    }
    if !word_fits(sheet, layout::STEPS, 2048) {
        return false;
    }
    if !word_fits(sheet, layout::IDS, 8192) {
        return false;
    }
    word_fits(sheet, layout::NEXT_SOURCE, 65536)
}

fn entries_fit(sheet: &[u32]) -> bool
    ensures { result ≡ entries_fit sheet.now }
{
    let own = wide(word(sheet, layout::ENTRIES));
    own + wide(word(sheet, layout::STYLE_ENTRIES)) <= 4096
}

fn style_counts_fit(sheet: &[u32]) -> bool
    ensures { result ≡ style_counts_fit sheet.now }
{
    if !word_fits(sheet, layout::STYLES, 64) {
        return false;
    }
    if !word_fits(sheet, layout::STYLE_ENTRIES, 2048) {
        return false;
    }
    entries_fit(sheet)
}

fn counts_fit(sheet: &[u32]) -> bool
    ensures { result ≡ counts_fit sheet.now }
{
    if !room_enough(sheet) {
        return false;
    }
    if !rule_counts_fit(sheet) {
        return false;
    }
    style_counts_fit(sheet)
}

// List k of the column of ends.
pub fn end_to_end(sheet: &[u32], ends: Column, k: u32) -> bool
    ensures { result ≡ end_to_end (ends_in sheet.now ends.base ends.stride) k }
{
    start_of(sheet, ends, k) <= cell(sheet, ends, k)
}

// How many elements list k has.
pub fn list_length(sheet: &[u32], ends: Column, k: u32) -> u32
    ensures { result ≡ ends_in sheet.now ends.base ends.stride k - start_of (ends_in sheet.now ends.base ends.stride) k }
{
    let from = start_of(sheet, ends, k);
    let to = cell(sheet, ends, k);
    if to < from {
        return 0;
    }
    to - from
}

fn list_fits(sheet: &[u32], ends: Column, size: u32, k: u32) -> bool
    ensures { result ≡ list_fits (ends_in sheet.now ends.base ends.stride) size k }
{
    if !end_to_end(sheet, ends, k) {
        return false;
    }
    list_length(sheet, ends, k) <= size
}

// Row k of a column.
fn cell_fits(sheet: &[u32], column: Column, k: u32, limit: u32) -> bool
    ensures { result ≡ leb (ends_in sheet.now column.base column.stride k) limit }
{
    cell(sheet, column, k) <= limit
}

fn properties_ascend(sheet: &[u32], pool: usize, ends: Column, k: u32) -> bool
    ensures { result ≡ properties_ascend sheet.now pool (ends_in sheet.now ends.base ends.stride) k }
{
    is_ascending(list_of(sheet, ends, rest(sheet, pool), k))
}

fn first_untied(sheet: &[u32], r: u32) -> bool
    ensures { result ≡ first_untied sheet.now r }
{
    let steps = layout::RULE_STEP_ENDS;
    let first = start_of(sheet, steps, r);
    if first < cell(sheet, steps, r) {
        return cell(sheet, layout::STEP_COMBINATORS, first) == 0;
    }
    true
}

fn rule_lists_fit(sheet: &[u32], r: u32) -> bool
    ensures { result ≡ rule_lists_fit sheet.now r }
{
    let entries = layout::RULE_ENTRY_ENDS;
    if !list_fits(sheet, layout::RULE_STEP_ENDS, 8, r) {
        return false;
    }
    if !list_fits(sheet, entries, 32, r) {
        return false;
    }
    if !first_untied(sheet, r) {
        return false;
    }
    properties_ascend(sheet, layout::ENTRY, entries, r)
}

fn rule_fine(sheet: &[u32], r: u32) -> bool
    ensures { result ≡ rule_fine sheet.now r }
{
    if !cell_fits(sheet, layout::RULE_ORIGINS, r, 7) {
        return false;
    }
    if !cell_fits(sheet, layout::RULE_SOURCES, r, 65535) {
        return false;
    }
    rule_lists_fit(sheet, r)
}

fn style_fine(sheet: &[u32], d: u32) -> bool
    ensures { result ≡ style_fine sheet.now d }
{
    let entries = layout::STYLE_ENTRY_ENDS;
    if !cell_fits(sheet, layout::STYLE_ORIGINS, d, 7) {
        return false;
    }
    if !cell_fits(sheet, layout::STYLE_SOURCES, d, 65535) {
        return false;
    }
    if !list_fits(sheet, entries, 32, d) {
        return false;
    }
    properties_ascend(sheet, layout::STYLE_ENTRY, entries, d)
}

// Where the row of step s stands.
pub fn step_place(s: u32) -> usize
    ensures { result ≡ step_place s }
{
    wide(layout::STEP) + wide(layout::STEP_WORDS) * wide(s)
}

// The ids of step s that stand from word `from` of its row on, as many as word `count` says.
fn ids_ascend(sheet: &[u32], s: u32, from: usize, count: usize) -> bool
    requires { (s < 2048) × (from ≤ 22) × (count ≤ 22) }
    ensures { result ≡ ascends (words_from sheet.now (step_place s + from) (get_or sheet.now (step_place s + count) 0)) }
{
    let at = step_place(s);
    is_ascending(ids(sheet, at + from, at + count))
}

// The flags and the counts of step s.
fn step_words_fit(sheet: &[u32], s: u32) -> bool
    ensures { result ≡ (type_flag_fits sheet.now s && (part_flag_fits sheet.now s && (classes_fit sheet.now s && pseudos_fit sheet.now s))) }
{
    if !cell_fits(sheet, layout::STEP_TYPE_FLAGS, s, 1) {
        return false;
    }
    if !cell_fits(sheet, layout::STEP_PART_FLAGS, s, 1) {
        return false;
    }
    if !cell_fits(sheet, layout::STEP_CLASS_COUNTS, s, 8) {
        return false;
    }
    cell_fits(sheet, layout::STEP_PSEUDO_COUNTS, s, 8)
}

fn step_fine(sheet: &[u32], s: u32) -> bool
    requires { s < 2048 }
    ensures { result ≡ step_fine sheet.now s }
{
    if !step_words_fit(sheet, s) {
        return false;
    }
    if !ids_ascend(sheet, s, 6, 4) {
        return false;
    }
    if !ids_ascend(sheet, s, 14, 5) {
        return false;
    }
    cell_fits(sheet, layout::STEP_COMBINATORS, s, 1)
}

fn rules_fine(sheet: &[u32], n: u32) -> bool
    ensures { result ≡ all_below n (rule_fine sheet.now) }
{
    (0..n).all(|r| rule_fine(sheet, r))
}

fn steps_fine(sheet: &[u32], n: u32) -> bool
    requires { n ≤ 2048 }
    ensures { result ≡ all_below n (step_fine sheet.now) }
{
    (0..n).all(|s| step_fine(sheet, s))
}

fn styles_fine(sheet: &[u32], n: u32) -> bool
    ensures { result ≡ all_below n (style_fine sheet.now) }
{
    (0..n).all(|d| style_fine(sheet, d))
}

fn rows_fine(sheet: &[u32]) -> bool
    requires { counts_fit sheet.now ≡ true }
    ensures { result ≡ rows_fine sheet.now }
{
    if !rules_fine(sheet, word(sheet, layout::RULES)) {
        return false;
    }
    if !steps_fine(sheet, word(sheet, layout::STEPS)) {
        return false;
    }
    styles_fine(sheet, word(sheet, layout::STYLES))
}

// n words from `base` on.
fn words_fit(sheet: &[u32], base: usize, n: u32, limit: u32) -> bool
    requires { base ≤ 200000 }
    ensures { result ≡ at_most limit (words_from sheet.now base n) }
{
    at_most(part(sheet, base, base + wide(n)), limit)
}

// The n entries of a pool.
fn pool_fits(sheet: &[u32], base: usize, room: usize, n: u32) -> bool
    requires { (base ≤ 100000) × (room ≤ 4096) }
    ensures { result ≡ pool_fits sheet.now base room n }
{
    if !words_fit(sheet, base, n, 65535) {
        return false;
    }
    words_fit(sheet, base + room, n, 3)
}

fn pools_fit(sheet: &[u32]) -> bool
    ensures { result ≡ pools_fit sheet.now }
{
    if !pool_fits(
        sheet,
        layout::ENTRY,
        layout::ENTRY_ROOM,
        word(sheet, layout::ENTRIES),
    ) {
        return false;
    }
    pool_fits(
        sheet,
        layout::STYLE_ENTRY,
        layout::STYLE_ENTRY_ROOM,
        word(sheet, layout::STYLE_ENTRIES),
    )
}

// The ids of n steps.
fn sum_ids(sheet: &[u32], n: u32) -> usize
    requires { n ≤ 2048 }
    ensures { result ≡ sum_below (ids_at sheet.now) n }
{
    let mut sum = 0;
    for s in 0..n {
        let at = step_place(s);
        sum += wide(word(sheet, at + 4)) + wide(word(sheet, at + 5));
    }
    sum
}

// Whether the last of n lists ends at `count`; with no list, whether that is 0.
pub fn ends_at(sheet: &[u32], ends: Column, n: u32, count: u32) -> bool
    ensures { result ≡ ends_at (ends_in sheet.now ends.base ends.stride) n count }
{
    start_of(sheet, ends, n) == count
}

fn ends_meet(sheet: &[u32]) -> bool
    requires { counts_fit sheet.now ≡ true }
    ensures { result ≡ ends_meet sheet.now }
{
    let rules = word(sheet, layout::RULES);
    if !ends_at(
        sheet,
        layout::RULE_STEP_ENDS,
        rules,
        word(sheet, layout::STEPS),
    ) {
        return false;
    }
    if !ends_at(
        sheet,
        layout::RULE_ENTRY_ENDS,
        rules,
        word(sheet, layout::ENTRIES),
    ) {
        return false;
    }
    if !ends_at(
        sheet,
        layout::STYLE_ENTRY_ENDS,
        word(sheet, layout::STYLES),
        word(sheet, layout::STYLE_ENTRIES),
    ) {
        return false;
    }
    ids_meet(sheet)
}

fn ids_meet(sheet: &[u32]) -> bool
    requires { counts_fit sheet.now ≡ true }
    ensures { result ≡ ids_meet sheet.now }
{
    sum_ids(sheet, word(sheet, layout::STEPS)) == wide(word(sheet, layout::IDS))
}

// Whether the words are a sheet: 01's row 11.
pub fn is_sheet(sheet: &[u32]) -> bool
    ensures { result ≡ sheet_shape sheet.now }
{
    if !counts_fit(sheet) {
        return false;
    }
    if !rows_fine(sheet) {
        return false;
    }
    if !pools_fit(sheet) {
        return false;
    }
    ends_meet(sheet)
}
