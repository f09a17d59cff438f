// The refusals of a pushed style and of a pushed group, in 01's order. Nothing is written.
ghost use Rattle.std.specs.Prelude.{◌≡◌, ◌+◌, ◌*◌, ◌≤◌, length, drop};
ghost use Rattle.lent.specs.Refusals.{first_of, checks_below, verdict_of};
ghost use Rattle.given.specs.Given.{group_of};
ghost use Rattle.given.specs.Pushing.{index_checks, form_checks, style_size_checks, style_push_verdict, rules_over, rule_size_checks, one_rule_checks, rule_checks, group_verdict};

use crate::held;
use checks::held::{check_combinators, selector_over};
use given::held::{all_entries, held_ids};
use given::{EntryLists, GroupLists};
use lent::Refusal;
use lent::held::rest;
use lent::words::{wide, word};
use sheet::{Sheet, layout};
use style::held::{entries_over, kinds_over, properties_off};

// 7.
pub(crate) fn check_index(sheet: &[u32]) -> Result<(), Refusal>
    ensures { verdict_of result ≡ first_of (index_checks sheet.now) }
{
    if 65535 < word(sheet, layout::NEXT_SOURCE) {
        return Err(Refusal::NoSourceIndex);
    }
    Ok(())
}

// 6, 1.
pub(crate) fn check_form(entries: EntryLists, n: usize) -> Result<(), Refusal>
    requires { (n ≤ 32) × (n ≤ length entries.properties.now) × (n ≤ length entries.kinds.now) }
    ensures { verdict_of result ≡ first_of (form_checks entries.entry.properties.now entries.entry.kinds.now n) }
{
    if kinds_over(entries.kinds, n) {
        return Err(Refusal::CodeOutOfRange);
    }
    if properties_off(entries.properties, n) {
        return Err(Refusal::NotAscending);
    }
    Ok(())
}

// 2.
pub(crate) fn check_style_sizes(sheet: &[u32], entries: EntryLists, n: usize) -> Result<(), Refusal>
    ensures { verdict_of result ≡ first_of (style_size_checks sheet.now entries.entry.properties.now entries.entry.kinds.now entries.entry.numbers.now n) }
{
    if 64 <= word(sheet, layout::STYLES) {
        return Err(Refusal::OverSize);
    }
    if entries_over(entries.properties, entries.kinds, entries.numbers, n) {
        return Err(Refusal::OverSize);
    }
    if 4096 < all_entries(sheet) + n {
        return Err(Refusal::OverSize);
    }
    Ok(())
}

// "Pushing a style 11, 6 (origin), 2, 6, 1, 7." Its check and its lists are not the group's: one call each.
pub fn check_style(sheet: &[u32], origin: u32, entries: EntryLists, n: usize) -> Result<(), Refusal>
    ensures { verdict_of result ≡ style_push_verdict sheet.now origin entries.entry.properties.now entries.entry.kinds.now entries.entry.numbers.now n }
{
    let Some(sheet) = Sheet::of(sheet) else {
        return Err(Refusal::BrokenShape);
    };
    held::check_style(sheet, origin, entries, n)
}

// 2, of one rule whose n steps, m combinators and l entries begin the lists, after `ids` ids and `entries` entries.
fn check_rule_sizes(
    lists: GroupLists,
    n: usize,
    m: usize,
    l: usize,
    ids: usize,
    entries: usize,
) -> Result<(), Refusal>
    requires { (ids ≤ 8192) × (entries ≤ 4096) }
    ensures { verdict_of result ≡ first_of (rule_size_checks lists.entry.steps.now n lists.entry.combinators.now m lists.entry.entries.properties.now lists.entry.entries.kinds.now lists.entry.entries.numbers.now l ids entries) }
{
    if selector_over(lists.steps, n, lists.combinators, m) {
        return Err(Refusal::OverSize);
    }
    let own = lists.entries;
    if entries_over(own.properties, own.kinds, own.numbers, l) {
        return Err(Refusal::OverSize);
    }
    if 8192 < ids + held_ids(lists.steps, n) {
        return Err(Refusal::OverSize);
    }
    if 4096 < entries + l {
        return Err(Refusal::OverSize);
    }
    Ok(())
}

// 2, 3, 6, 1.
fn check_rule(
    lists: GroupLists,
    n: usize,
    m: usize,
    l: usize,
    ids: usize,
    entries: usize,
) -> Result<(), Refusal>
    requires { (ids ≤ 8192) × (entries ≤ 4096) }
    ensures { verdict_of result ≡ first_of (one_rule_checks lists.entry.steps.now n lists.entry.combinators.now m lists.entry.entries.properties.now lists.entry.entries.kinds.now lists.entry.entries.numbers.now l ids entries) }
{
    check_rule_sizes(lists, n, m, l, ids, entries)?;
    check_combinators(n, lists.combinators, m)?;
    check_form(lists.entries, l)
}

// The same of a rule whose steps, combinators and entries begin at p, c and q.
fn check_rule_from(
    lists: GroupLists,
    p: usize,
    n: usize,
    c: usize,
    m: usize,
    q: usize,
    l: usize,
    ids: usize,
    entries: usize,
) -> Result<(), Refusal>
    requires { (p ≤ 2048) × (ids ≤ 8192) × (entries ≤ 4096) }
    ensures { verdict_of result ≡ first_of (one_rule_checks (drop (22 * p) lists.entry.steps.now) n (drop c lists.entry.combinators.now) m (drop q lists.entry.entries.properties.now) (drop q lists.entry.entries.kinds.now) (drop q lists.entry.entries.numbers.now) l ids entries) }
{
    let entry_lists = EntryLists {
        properties: rest(lists.entries.properties, q),
        kinds: rest(lists.entries.kinds, q),
        numbers: rest(lists.entries.numbers, q),
    };
    let own = GroupLists {
        rules: lists.rules,
        steps: rest(lists.steps, 22 * p),
        combinators: rest(lists.combinators, c),
        entries: entry_lists,
    };
    check_rule(own, n, m, l, ids, entries)
}

// "each rule in turn": n rules, after `ids` ids and `entries` entries.
pub(crate) fn check_rules(
    lists: GroupLists,
    n: usize,
    ids: usize,
    entries: usize,
) -> Result<(), Refusal>
    requires { (n ≤ 256) × (ids ≤ 8192) × (entries ≤ 4096) }
    ensures { verdict_of result ≡ first_of (checks_below n (rule_checks ids entries (group_of lists.entry))) }
{
    let mut p = 0;
    let mut c = 0;
    let mut q = 0;
    let mut t = ids;
    for k in 0..n {
        let i = 3 * k;
        let step_count = wide(word(lists.rules, i));
        let combinator_count = wide(word(lists.rules, i + 1));
        let entry_count = wide(word(lists.rules, i + 2));
        check_rule_from(
            lists,
            p,
            step_count,
            c,
            combinator_count,
            q,
            entry_count,
            t,
            entries + q,
        )?;
        t += held_ids(rest(lists.steps, 22 * p), step_count);
        p += step_count;
        c += combinator_count;
        q += entry_count;
    }
    Ok(())
}

pub(crate) fn rules_over(sheet: Sheet<'_>, rules: &[u32], n: usize) -> bool
    ensures { result ≡ rules_over sheet.entry.words.now rules.now n }
{
    if 256 - wide(word(sheet.words, layout::RULES)) < n {
        return true;
    }
    rules.len() / 3 < n
}

// "Pushing a group 11, 6 for the origin, 2 for the number of rules, then each rule in turn 2 (sheet sums so far included), 3, 6, 1, then 7".
pub fn check_group(sheet: &[u32], origin: u32, lists: GroupLists, n: usize) -> Result<(), Refusal>
    ensures { verdict_of result ≡ group_verdict sheet.now origin (group_of lists.entry) n }
{
    let Some(sheet) = Sheet::of(sheet) else {
        return Err(Refusal::BrokenShape);
    };
    held::check_group(sheet, origin, lists, n)
}
