// The keys of a sheet's sources, for callers that hold the sheet to its shape already.
ghost use Rattle.std.specs.Prelude.{◌≡◌, ℕ, ◌≤◌, ◌<◌};
ghost use Rattle.sheet.specs.Layout.{rules_in};
ghost use Rattle.sheet.specs.Sheets.{key_of, direct, listed, style_at, rule_at};
ghost use Rattle.keys.specs.Keys.{key_from};

use crate::CascadeEntryKey;
use lent::lists::cell;
use selector::Specificity;
use sheet::{Sheet, layout};
use weighed::held::weight;

// Of a direct style: it has no weight and no order, whatever the ranking.
pub fn style_key(sheet: &[u32], number: u32) -> CascadeEntryKey
    ensures { (ranking : ℕ) → key_from result ≡ key_of ranking (direct (style_at sheet.now number)) }
{
    CascadeEntryKey {
        origin: cell(sheet, layout::STYLE_ORIGINS, number),
        specificity: Specificity(0, 0, 0, 0),
        source_index: cell(sheet, layout::STYLE_SOURCES, number),
        order: 0,
    }
}

// Of a rule: `MatchRule::cascade_key`.
pub fn rule_key(sheet: Sheet<'_>, number: u32, ranking: u32) -> CascadeEntryKey
    requires { (number < rules_in sheet.words.now) × (ranking ≤ 1) }
    ensures { key_from result ≡ key_of ranking (listed (rule_at sheet.entry.words.now number)) }
{
    CascadeEntryKey {
        origin: cell(sheet.words, layout::RULE_ORIGINS, number),
        specificity: weight(sheet, number, ranking),
        source_index: cell(sheet.words, layout::RULE_SOURCES, number),
        order: cell(sheet.words, layout::RULE_ORDERS, number),
    }
}
