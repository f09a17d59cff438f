// For callers that hold the sheet to its shape already: pushes without that test.
// Twins of the public pushes, which promise an answer on any words and so test them; a record with many groups tests its sheet once.
ghost use Rattle.std.specs.Prelude.{◌≡◌, true};
ghost use Rattle.lent.specs.Refusals.{verdict_of};
ghost use Rattle.sheet.specs.Shape.{sheet_shape};
ghost use Rattle.given.specs.Given.{given};
ghost use Rattle.given.specs.Pushing.{style_push_verdict, pushed_style, group_verdict, pushed_group};
ghost use Rattle.builder.specs.Answers.{Pushes};

use given::{EntryLists, GroupLists};
use lent::Refusal;
use sheet::Sheet;

pub fn push_style(
    sheet: &mut [u32],
    origin: u32,
    properties: &[u16],
    kinds: &[u32],
    numbers: &[u32],
    count: usize,
) -> Result<(), Refusal>
    requires { sheet_shape sheet.old ≡ true }
    ensures { Pushes (style_push_verdict sheet.old origin properties.now kinds.now numbers.now count) sheet.old (pushed_style sheet.old origin properties.now kinds.now numbers.now count) (verdict_of result) sheet.new }
{
    let entries = EntryLists {
        properties,
        kinds,
        numbers,
    };
    admit::held::check_style(Sheet { words: sheet }, origin, entries, count)?;
    group::held::put_style(sheet, origin, entries, count);
    Ok(())
}

pub fn push_rules(
    sheet: &mut [u32],
    origin: u32,
    rules: &[u32],
    rule_count: usize,
    steps: &[u32],
    combinators: &[u32],
    properties: &[u16],
    kinds: &[u32],
    numbers: &[u32],
) -> Result<(), Refusal>
    requires { sheet_shape sheet.old ≡ true }
    ensures { Pushes (group_verdict sheet.old origin (given rules.now steps.now combinators.now properties.now kinds.now numbers.now) rule_count) sheet.old (pushed_group sheet.old origin (given rules.now steps.now combinators.now properties.now kinds.now numbers.now) rule_count) (verdict_of result) sheet.new }
{
    let lists = GroupLists {
        rules,
        steps,
        combinators,
        entries: EntryLists {
            properties,
            kinds,
            numbers,
        },
    };
    admit::held::check_group(Sheet { words: sheet }, origin, lists, rule_count)?;
    group::held::put_group(sheet, origin, lists, rule_count);
    Ok(())
}
