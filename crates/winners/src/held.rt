// For callers that hold the sheet to its shape already.
ghost use Rattle.std.specs.Prelude.{◌≡◌, true, ◌+◌, ◌≤◌, ◌<◌, length, drop};
ghost use Rattle.std.proofs.Math.Option.{some};
ghost use Rattle.theory.specs.Lists.{spread, ascends};
ghost use Rattle.theory.specs.Cascade.{winner, same_key};
ghost use Rattle.lent.specs.Pool.{ends_in, list_at};
ghost use Rattle.sheet.specs.Layout.{styles_in};
ghost use Rattle.sheet.specs.Sheets.{between, entry_at, key_of};
ghost use Rattle.style.specs.Entries.{look_up};
ghost use Rattle.keys.specs.Keys.{key_from};
ghost use Rattle.winners.specs.Winners.{style, rule, source_at, key_at, holds_at, winner_of, entry_of, AreRules};
ghost use Rattle.winners.specs.Next.{Next};
ghost use Rattle.winners.specs.Best.{place_of, place_in, key_in, Stands, beats_key, is_place, Finds};

use crate::{Best, Found, Source};
use idset::held::{contains, lower_bound};
use keys::CascadeEntryKey;
use keys::held::{rule_key, style_key};
use lent::held::{list_of, rest};
use lent::lists::{Column, start_of};
use lent::words::{wide, word};
use sheet::{Sheet, layout};

// Where the entries of a kind of source stand: the column of their lists' ends, the pool, and its room.
#[derive(Clone, Copy)]
struct Pool {
    ends: Column,
    base: usize,
    room: usize,
}

const STYLE_POOL: Pool = Pool {
    ends: layout::STYLE_ENTRY_ENDS,
    base: layout::STYLE_ENTRY,
    room: layout::STYLE_ENTRY_ROOM,
};

const RULE_POOL: Pool = Pool {
    ends: layout::RULE_ENTRY_ENDS,
    base: layout::ENTRY,
    room: layout::ENTRY_ROOM,
};

// The properties of list k.
fn ids_in<'a>(sheet: &'a [u32], pool: Pool, k: u32) -> &'a [u32]
    ensures { result.now ≡ list_at (ends_in sheet.now pool.ends.base pool.ends.stride) (drop pool.base sheet.now) k }
{
    list_of(sheet, pool.ends, rest(sheet, pool.base), k)
}

fn holds(sheet: Sheet<'_>, source: Source, property: u32) -> bool
    requires { is_place sheet.words.now (some (place_of source)) ≡ true }
    ensures { result ≡ holds_at sheet.entry.words.now (place_of source) property }
{
    match source {
        Source::Style(d) => contains(ids_in(sheet.words, STYLE_POOL, d), property),
        Source::Rule(r) => contains(ids_in(sheet.words, RULE_POOL, r), property),
    }
}

fn key(sheet: Sheet<'_>, ranking: u32, source: Source) -> CascadeEntryKey
    requires { (is_place sheet.words.now (some (place_of source)) ≡ true) × (ranking ≤ 1) }
    ensures { key_from result ≡ key_of ranking (source_at sheet.entry.words.now (place_of source)) }
{
    match source {
        Source::Style(d) => style_key(sheet.words, d),
        Source::Rule(r) => rule_key(sheet, r, ranking),
    }
}

// Of equal keys the first stays.
fn beats(key: CascadeEntryKey, best: Option<Best>) -> bool
    ensures { result ≡ beats_key (key_from key) (key_in best) }
{
    match best {
        None => true,
        Some(b) => key > b.key,
    }
}

// The best so far, after one more direct style. Styles and rules have a function each, called from one loop each: one for both takes twice the time.
fn or_style(
    sheet: Sheet<'_>,
    ranking: u32,
    best: Option<Best>,
    number: u32,
    property: u32,
) -> Option<Best>
    requires { (is_place sheet.words.now (some (style number)) ≡ true) × (ranking ≤ 1) }
    ensures { Next sheet.entry.words.now ranking property (style number) best result }
{
    let source = Source::Style(number);
    if !holds(sheet, source, property) {
        return best;
    }
    let own = key(sheet, ranking, source);
    if !beats(own, best) {
        return best;
    }
    Some(Best { source, key: own })
}

// And after one more rule.
fn or_rule(
    sheet: Sheet<'_>,
    ranking: u32,
    best: Option<Best>,
    number: u32,
    property: u32,
) -> Option<Best>
    requires { (is_place sheet.words.now (some (rule number)) ≡ true) × (ranking ≤ 1) }
    ensures { Next sheet.entry.words.now ranking property (rule number) best result }
{
    let source = Source::Rule(number);
    if !holds(sheet, source, property) {
        return best;
    }
    let key = key(sheet, ranking, source);
    if !beats(key, best) {
        return best;
    }
    Some(Best { source, key })
}

// The direct style that wins among the direct styles.
fn best_style(sheet: Sheet<'_>, ranking: u32, property: u32) -> Option<Best>
    requires { ranking ≤ 1 }
    ensures { Stands sheet.entry.words.now ranking property (winner (key_at sheet.entry.words.now ranking) (holds_at sheet.entry.words.now) (spread style 0 (styles_in sheet.entry.words.now)) property) result }
{
    let mut best = None;
    for d in 0..word(sheet.words, layout::STYLES) {
        best = or_style(sheet, ranking, best, d, property);
    }
    best
}

// The winner among the direct styles and these rules: `StyleCascade::compute_winning_source`.
pub fn winner(sheet: Sheet<'_>, ranking: u32, rules: &[u32], property: u32) -> Option<Best>
    requires { (ranking ≤ 1) × AreRules sheet.words.now rules.now }
    ensures { Stands sheet.entry.words.now ranking property (winner_of sheet.entry.words.now ranking rules.now property) result }
{
    let mut best = best_style(sheet, ranking, property);
    for &r in rules {
        best = or_rule(sheet, ranking, best, r, property);
    }
    best
}

// Whether two winners have the same key, or there is none on either side. By the keys alone, so not the derived equality.
pub fn same(a: Option<Best>, b: Option<Best>) -> bool
    ensures { result ≡ same_key (key_in a) (key_in b) }
{
    match (a, b) {
        (Some(a), Some(b)) => a.key == b.key,
        (None, None) => true,
        _ => false,
    }
}

// The property's entry in list k.
fn entry_in(sheet: &[u32], pool: Pool, k: u32, property: u32) -> Option<Found>
    requires base_bound { (pool.base ≤ 100000) × (pool.room ≤ 4096) × (pool.base + ends_in sheet.now pool.ends.base pool.ends.stride k ≤ length sheet.now) }
    requires k_value { ascends (list_at (ends_in sheet.now pool.ends.base pool.ends.stride) (drop pool.base sheet.now) k) ≡ true }
    ensures { Finds (look_up property (between (entry_at sheet.now pool.base pool.room) (ends_in sheet.now pool.ends.base pool.ends.stride) k)) result }
{
    let list = ids_in(sheet, pool, k);
    let at = lower_bound(list, property);
    if list.len() <= at {
        return None;
    }
    if list[at] != property {
        return None;
    }
    let e = pool.base + pool.room + wide(start_of(sheet, pool.ends, k)) + at;
    Some(Found {
        kind: word(sheet, e),
        number: word(sheet, e + pool.room),
    })
}

// The winner's entry of the property, and no other's.
pub fn entry(sheet: Sheet<'_>, best: Option<Best>, property: u32) -> Option<Found>
    requires { is_place sheet.words.now (place_in best) ≡ true }
    ensures { Finds (entry_of sheet.entry.words.now (place_in best) property) result }
{
    match best?.source {
        Source::Style(d) => entry_in(sheet.words, STYLE_POOL, d, property),
        Source::Rule(r) => entry_in(sheet.words, RULE_POOL, r, property),
    }
}
