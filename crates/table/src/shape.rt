// The test of a table's shape, clause by clause.
// Counts are the used counts that stand in the words themselves (01: "flat lent tables with used counts").
ghost use Rattle.std.specs.Prelude.{◌≡◌, not, ◌&&◌, ℕ, ◌*◌, ◌<◌, length, get_or, leb, ltb};
ghost use Rattle.theory.specs.Lists.{ascends};
ghost use Rattle.lent.specs.All.{all_below};
ghost use Rattle.lent.specs.Pool.{ends_in, list_at};
ghost use Rattle.selector.specs.Rows.{words_from};
ghost use Rattle.table.specs.Tables.{states_in, transitions_in, subject_place};
ghost use Rattle.table.specs.Lent.{lent};
ghost use Rattle.table.specs.Shape.{root_there, states_held, cursors_held, matched_held, transitions_held, cursor_exists, rule_exists, root_cursors, root_matched, counts_fit, state_fine, subject_fine, transition_fine, lists_meet, states_fine, numbers_exist, root_built, table_shape};
ghost use Rattle.table.specs.Calls.{broken};

use crate::held::roots;
use crate::{Table, layout};
use idset::{compare, is_ascending};
use lent::held::{list_of, part};
use lent::lists::{Column, cell, start_of};
use lent::words::{wide, word};
use sheet::Sheet;
use sheet::shape::{end_to_end, ends_at};

// ---- single words, and the room of lists

// Whether the word is so much or less.
fn is_at_most(words: &[u32], at: usize, most: u32) -> bool
    ensures { result ≡ leb (get_or words.now at 0) most }
{
    word(words, at) <= most
}

fn root_there(head: &[u32]) -> bool
    ensures { result ≡ root_there head.now }
{
    1 <= word(head, layout::STATES)
}

// Whether as many rows as the head's word counts are in the list.
fn rows_held(head: &[u32], at: usize, row_words: u32, list: &[u32]) -> bool
    ensures { result ≡ leb (row_words * get_or head.now at 0) (length list.now) }
{
    wide(row_words) * wide(word(head, at)) <= list.len()
}

// The same of single words.
fn words_held(head: &[u32], at: usize, list: &[u32]) -> bool
    ensures { result ≡ leb (get_or head.now at 0) (length list.now) }
{
    wide(word(head, at)) <= list.len()
}

fn rooms_held(t: Table) -> bool
    ensures { result ≡ (states_held t.entry.head.now t.entry.states.now && (cursors_held t.entry.head.now t.entry.cursors.now && (matched_held t.entry.head.now t.entry.matched.now && transitions_held t.entry.head.now t.entry.transitions.now))) }
{
    if !rows_held(t.head, layout::STATES, layout::STATE_WORDS, t.states) {
        return false;
    }
    if !words_held(t.head, layout::CURSORS, t.cursors) {
        return false;
    }
    if !words_held(t.head, layout::MATCHED, t.matched) {
        return false;
    }
    rows_held(
        t.head,
        layout::TRANSITIONS,
        layout::TRANSITION_WORDS,
        t.transitions,
    )
}

fn counts_fit(t: Table) -> bool
    ensures { result ≡ counts_fit (lent t.entry) }
{
    if !root_there(t.head) {
        return false;
    }
    if !is_at_most(t.head, layout::STATES, 512) {
        return false;
    }
    if !is_at_most(t.head, layout::RANKING, 1) {
        return false;
    }
    rooms_held(t)
}

// ---- states

fn list_ascends(words: &[u32], ends: Column, pool: &[u32], k: u32) -> bool
    ensures { result ≡ ascends (list_at (ends_in words.now ends.base ends.stride) pool.now k) }
{
    is_ascending(list_of(words, ends, pool, k))
}

fn state_fine(states: &[u32], cursors: &[u32], matched: &[u32], k: u32) -> bool
    ensures { result ≡ state_fine states.now cursors.now matched.now k }
{
    let cursor_ends = layout::CURSOR_ENDS;
    let matched_ends = layout::MATCHED_ENDS;
    if !end_to_end(states, cursor_ends, k) {
        return false;
    }
    if !end_to_end(states, matched_ends, k) {
        return false;
    }
    if !list_ascends(states, cursor_ends, cursors, k) {
        return false;
    }
    list_ascends(states, matched_ends, matched, k)
}

fn each_state_fine(states: &[u32], cursors: &[u32], matched: &[u32], n: u32) -> bool
    ensures { result ≡ all_below n (state_fine states.now cursors.now matched.now) }
{
    (0..n).all(|k| state_fine(states, cursors, matched, k))
}

fn lists_meet(head: &[u32], states: &[u32]) -> bool
    ensures { result ≡ lists_meet head.now states.now }
{
    let cursor_ends = layout::CURSOR_ENDS;
    let matched_ends = layout::MATCHED_ENDS;
    let n = word(head, layout::STATES);
    if !ends_at(states, cursor_ends, n, word(head, layout::CURSORS)) {
        return false;
    }
    ends_at(states, matched_ends, n, word(head, layout::MATCHED))
}

fn states_fine(t: Table) -> bool
    ensures { result ≡ states_fine (lent t.entry) }
{
    if !each_state_fine(t.states, t.cursors, t.matched, word(t.head, layout::STATES)) {
        return false;
    }
    lists_meet(t.head, t.states)
}

// ---- cursors and rules

fn cursor_exists(sheet: Sheet<'_>, cursor: u32) -> bool
    ensures { result ≡ cursor_exists sheet.entry.words.now cursor }
{
    let steps = sheet::layout::RULE_STEP_ENDS;
    let r = cursor / 8;
    if word(sheet.words, sheet::layout::RULES) <= r {
        return false;
    }
    start_of(sheet.words, steps, r) + cursor % 8 < cell(sheet.words, steps, r)
}

fn cursors_exist(sheet: Sheet<'_>, cursors: &[u32], n: u32) -> bool
    ensures { result ≡ all_below n (λ (i : ℕ). cursor_exists sheet.entry.words.now (get_or cursors.now i 0)) }
{
    (0..n).all(|i| cursor_exists(sheet, word(cursors, wide(i))))
}

fn rule_exists(sheet: &[u32], rule: u32) -> bool
    ensures { result ≡ rule_exists sheet.now rule }
{
    rule < word(sheet, sheet::layout::RULES)
}

fn rules_exist(sheet: &[u32], matched: &[u32], n: u32) -> bool
    ensures { result ≡ all_below n (λ (i : ℕ). rule_exists sheet.now (get_or matched.now i 0)) }
{
    (0..n).all(|i| rule_exists(sheet, word(matched, wide(i))))
}

fn numbers_exist(sheet: Sheet<'_>, t: Table) -> bool
    ensures { result ≡ numbers_exist sheet.entry.words.now (lent t.entry) }
{
    if !cursors_exist(sheet, t.cursors, word(t.head, layout::CURSORS)) {
        return false;
    }
    rules_exist(sheet.words, t.matched, word(t.head, layout::MATCHED))
}

// ---- transitions

// Where the subject's row of transition k stands.
pub fn subject_place(k: u32) -> usize
    ensures { result ≡ subject_place k }
{
    wide(layout::SUBJECT) + wide(layout::TRANSITION_WORDS) * wide(k)
}

// Whether the ids from word `at` on ascend, as many as the word at `count` says.
// By `part` and not by `selector::held::ids`, which gives that list: `is_table` takes up to a quarter less time so.
fn ids_ascend(words: &[u32], at: usize, count: usize) -> bool
    requires { at < 1000000000000 }
    ensures { result ≡ ascends (words_from words.now at (get_or words.now count 0)) }
{
    let n = wide(word(words, count));
    is_ascending(part(words, at, at + n))
}

fn subject_fine(transitions: &[u32], k: u32) -> bool
    ensures { result ≡ subject_fine transitions.now k }
{
    let at = subject_place(k);
    if !is_at_most(transitions, at, 1) {
        return false;
    }
    if !is_at_most(transitions, at + 2, 1) {
        return false;
    }
    if !is_at_most(transitions, at + 4, 16) {
        return false;
    }
    if !is_at_most(transitions, at + 5, 16) {
        return false;
    }
    if !ids_ascend(transitions, at + 6, at + 4) {
        return false;
    }
    ids_ascend(transitions, at + 22, at + 5)
}

// Whether the state that a transition's column says exists.
fn state_exists(head: &[u32], transitions: &[u32], column: Column, k: u32) -> bool
    ensures { result ≡ ltb (ends_in transitions.now column.base column.stride k) (states_in head.now) }
{
    cell(transitions, column, k) < word(head, layout::STATES)
}

fn transition_fine(head: &[u32], transitions: &[u32], k: u32) -> bool
    ensures { result ≡ transition_fine head.now transitions.now k }
{
    let parents = layout::PARENTS;
    let children = layout::CHILDREN;
    if !state_exists(head, transitions, parents, k) {
        return false;
    }
    if !state_exists(head, transitions, children, k) {
        return false;
    }
    subject_fine(transitions, k)
}

fn transitions_fine(head: &[u32], transitions: &[u32]) -> bool
    ensures { result ≡ all_below (transitions_in head.now) (transition_fine head.now transitions.now) }
{
    (0..word(head, layout::TRANSITIONS)).all(|k| transition_fine(head, transitions, k))
}

// ---- the root

fn root_cursors(sheet: Sheet<'_>, states: &[u32], cursors: &[u32]) -> bool
    ensures { result ≡ root_cursors sheet.entry.words.now states.now cursors.now }
{
    let ends = layout::CURSOR_ENDS;
    let mut built = [0u32; 256];
    let n = roots(sheet, &mut built);
    compare(list_of(states, ends, cursors, 0), &built[..n]) == 0
}

fn root_matched(states: &[u32], matched: &[u32]) -> bool
    ensures { result ≡ root_matched states.now matched.now }
{
    let ends = layout::MATCHED_ENDS;
    list_of(states, ends, matched, 0).len() == 0
}

fn root_built(sheet: Sheet<'_>, t: Table) -> bool
    ensures { result ≡ root_built sheet.entry.words.now (lent t.entry) }
{
    if !root_cursors(sheet, t.states, t.cursors) {
        return false;
    }
    root_matched(t.states, t.matched)
}

// Whether the words are a table of this sheet, which is in shape.
fn fits_sheet(sheet: Sheet<'_>, t: Table) -> bool
    ensures { result ≡ table_shape sheet.entry.words.now (lent t.entry) }
{
    if !counts_fit(t) {
        return false;
    }
    if !states_fine(t) {
        return false;
    }
    if !numbers_exist(sheet, t) {
        return false;
    }
    if !transitions_fine(t.head, t.transitions) {
        return false;
    }
    root_built(sheet, t)
}

// Whether the sheet is in shape and the words are a table of it: 01's row 11.
pub fn is_table(sheet: &[u32], t: Table) -> bool
    ensures { result ≡ not (broken sheet.now (lent t.entry)) }
{
    let Some(sheet) = Sheet::of(sheet) else {
        return false;
    };
    fits_sheet(sheet, t)
}
