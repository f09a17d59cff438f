// For callers that hold the sheet to its shape already.
ghost use Rattle.std.specs.Prelude.{◌≡◌, true, not, ◌++◌, ℕ, ◌+◌, ◌≤◌, ◌<◌, length, take, get_or};
ghost use Rattle.theory.specs.Lists.{ascends, at_most, sort, spread};
ghost use Rattle.theory.specs.Cascade.{same_key};
ghost use Rattle.idset.specs.Buffers.{Holds};
ghost use Rattle.sheet.specs.Sheets.{entry_at};
ghost use Rattle.winners.specs.Winners.{winning_key_of, AreRules};
ghost use Rattle.changeset.specs.Marks.{ids_in};
ghost use Rattle.changes.specs.Changes.{changed_of, of_resource, resources_among, resource_dependent};
ghost use Rattle.changes.specs.Asked.{keep, differing, Listed};
ghost use Rattle.changes.specs.Within.{properties_of, properties_without};

use changeset::held::mark;
use idset::held::{contains, insert};
use lent::held::{list_of, rest};
use lent::words::{wide, word};
use sheet::{Sheet, layout};
use winners::held::{same, winner};

// The property ids of a rule go into the ascending list that stands in the first `used` words; its new length.
fn add_rule(sheet: &[u32], number: u32, list: &mut [u32], used: usize) -> usize
    requires { (used + length (properties_of sheet.now number) ≤ length list.old) × (ascends (take used list.old) ≡ true) }
    ensures { Holds (sort (properties_of sheet.now number ++ take used list.old)) list.old result list.new }
{
    let ends = layout::RULE_ENTRY_ENDS;
    let ids = list_of(sheet, ends, rest(sheet, layout::ENTRY), number);
    let mut n = used;
    for &id in ids {
        n = insert(list, n, id);
    }
    n
}

// The same of each rule that is not among the others.
fn add_rules(sheet: &[u32], rules: &[u32], others: &[u32], list: &mut [u32], used: usize) -> usize
    requires others_value { ascends others.now ≡ true }
    requires others_in_bounds { (used + length (properties_without sheet.now rules.now others.now) ≤ length list.old) × (ascends (take used list.old) ≡ true) }
    ensures { Holds (sort (properties_without sheet.now rules.now others.now ++ take used list.old)) list.old result list.new }
{
    let mut n = used;
    for &r in rules {
        if !contains(others, r) {
            n = add_rule(sheet, r, list, n);
        }
    }
    n
}

// Whether the property's winning key differs.
fn differs(sheet: Sheet<'_>, ranking: u32, old: &[u32], new: &[u32], property: u32) -> bool
    requires sheet_value { ranking ≤ 1 }
    requires are_rules { AreRules sheet.words.now old.now × AreRules sheet.words.now new.now }
    ensures { result ≡ not (same_key (winning_key_of sheet.entry.words.now ranking old.now property) (winning_key_of sheet.entry.words.now ranking new.now property)) }
{
    let before = winner(sheet, ranking, old, property);
    let after = winner(sheet, ranking, new, property);
    !same(before, after)
}

// The properties that have to be asked: those of rules that are listed on one side alone. How many there are.
fn gather(sheet: Sheet<'_>, old: &[u32], new: &[u32], list: &mut [u32]) -> usize
    requires are_rules { AreRules sheet.words.now old.now × AreRules sheet.words.now new.now }
    requires value { (ascends old.now ≡ true) × (ascends new.now ≡ true) }
    requires in_bounds { 4096 ≤ length list.old }
    ensures { Listed sheet.entry.words.now old.now new.now result list.new }
{
    let some = add_rules(sheet.words, old, new, list, 0);
    add_rules(sheet.words, new, old, list, some)
}

// Those of the ids whose winning key differs, into the front of `into`; how many there are.
fn pick(
    sheet: Sheet<'_>,
    ranking: u32,
    old: &[u32],
    new: &[u32],
    ids: &[u32],
    into: &mut [u16],
) -> usize
    requires sheet_value { ranking ≤ 1 }
    requires are_rules { AreRules sheet.words.now old.now × AreRules sheet.words.now new.now }
    requires ids_in_bounds { (length ids.now ≤ length into.old) × (at_most 65535 ids.now ≡ true) }
    ensures { Holds (keep (differing sheet.entry.words.now ranking old.now new.now) ids.now) into.old result into.new }
{
    let mut n = 0;
    for &id in ids {
        if differs(sheet, ranking, old, new, id) {
            into[n] = id as u16;
            n += 1;
        }
    }
    n
}

// `StyleCascade::changed_properties`, into the front of `into`; how many there are. Only properties of rules that are listed on one side alone can change.
pub fn changed(
    sheet: Sheet<'_>,
    ranking: u32,
    old: &[u32],
    new: &[u32],
    into: &mut [u16; 4096],
) -> usize
    requires sheet_value { ranking ≤ 1 }
    requires are_rules { AreRules sheet.words.now old.now × AreRules sheet.words.now new.now }
    requires value { (ascends old.now ≡ true) × (ascends new.now ≡ true) }
    ensures { Holds (changed_of sheet.entry.words.now ranking old.now new.now) into.old result into.new }
{
    let mut list = [0u32; 4096];
    let n = gather(sheet, old, new, &mut list);
    let words: &mut [u16] = into;
    pick(sheet, ranking, old, new, &list[..n], words)
}

fn reads_resource(kind: u32) -> bool
    ensures { result ≡ of_resource kind }
{
    kind == 1 || kind == 3
}

// Marks the properties of kind 1 or 3 among the first n entries of the pool at `base`.
fn mark_resources(sheet: &[u32], base: usize, room: usize, n: usize, marks: &mut [u32; 2048])
    requires base_bound { (base ≤ 100000) × (room ≤ 4096) × (n ≤ room) }
    requires by_index { (e : ℕ) → e < n → get_or sheet.now (base + e) 0 ≤ 65535 }
    ensures { ids_in marks.new ≡ sort (resources_among (spread (entry_at sheet.now base room) 0 n) ++ ids_in marks.old) }
{
    for e in base..base + n {
        if reads_resource(word(sheet, e + room)) {
            mark(marks, word(sheet, e) as u16);
        }
    }
}

// `StyleCascade::resource_dependent_properties`, marked.
pub fn resources(sheet: Sheet<'_>, marks: &mut [u32; 2048])
    ensures { ids_in marks.new ≡ sort (resource_dependent sheet.entry.words.now ++ ids_in marks.old) }
{
    let styles = wide(word(sheet.words, layout::STYLE_ENTRIES));
    let rules = wide(word(sheet.words, layout::ENTRIES));
    mark_resources(
        sheet.words,
        layout::STYLE_ENTRY,
        layout::STYLE_ENTRY_ROOM,
        styles,
        marks,
    );
    mark_resources(sheet.words, layout::ENTRY, layout::ENTRY_ROOM, rules, marks);
}
