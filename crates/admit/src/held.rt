// For callers that hold the sheet to its shape already: a record with many groups tests its sheet once. Nothing is written.
ghost use Rattle.std.specs.Prelude.{◌≡◌};
ghost use Rattle.lent.specs.Refusals.{verdict_of};
ghost use Rattle.given.specs.Given.{group_of};
ghost use Rattle.given.specs.Pushing.{style_push_verdict, group_verdict};

use crate::sources::{check_form, check_index, check_rules, check_style_sizes, rules_over};
use given::held::all_entries;
use given::{EntryLists, GroupLists};
use lent::Refusal;
use lent::words::{wide, word};
use sheet::{Sheet, layout};

// 6 (origin), 2, 6, 1, 7.
pub fn check_style(
    sheet: Sheet<'_>,
    origin: u32,
    entries: EntryLists,
    n: usize,
) -> Result<(), Refusal>
    ensures { verdict_of result ≡ style_push_verdict sheet.entry.words.now origin entries.entry.properties.now entries.entry.kinds.now entries.entry.numbers.now n }
{
    if 7 < origin {
        return Err(Refusal::CodeOutOfRange);
    }
    check_style_sizes(sheet.words, entries, n)?;
    check_form(entries, n)?;
    check_index(sheet.words)
}

// 6 for the origin, 2 for the number of rules, then each rule in turn 2, 3, 6, 1, then 7.
pub fn check_group(
    sheet: Sheet<'_>,
    origin: u32,
    lists: GroupLists,
    n: usize,
) -> Result<(), Refusal>
    ensures { verdict_of result ≡ group_verdict sheet.entry.words.now origin (group_of lists.entry) n }
{
    if 7 < origin {
        return Err(Refusal::CodeOutOfRange);
    }
    if rules_over(sheet, lists.rules, n) {
        return Err(Refusal::OverSize);
    }
    let ids = wide(word(sheet.words, layout::IDS));
    check_rules(lists, n, ids, all_entries(sheet.words))?;
    check_index(sheet.words)
}
