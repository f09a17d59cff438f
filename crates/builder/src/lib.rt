// Pushing styles, rules and cascades into a lent sheet: `StyleCascadeBuilder` of matcher.rs. Lists come one by one with a count: 2 refuses a count past any of them.
#![tactic(auto)]

ghost use Rattle.std.specs.Prelude.{[], ◌∷◌};
ghost use Rattle.sheet.specs.Laying.{emptied};
ghost use Rattle.given.specs.Given.{given};
ghost use Rattle.builder.specs.Answers.{Push};
ghost use Rattle.given.specs.Pushing.{empty_verdict, style_push_verdict, pushed_style, group_verdict, pushed_group, cascade_verdict, pushed_cascade};

use given::{EntryLists, GroupLists};
use lent::Refusal;
use lent::words::copy_into;
use sheet::layout;

pub mod held;

// The empty sheet: its counts are written, and nothing else.
pub fn new(sheet: &mut [u32]) -> Result<(), Refusal>
    ensures { Push (empty_verdict sheet.old) sheet.old (emptied sheet.old) result sheet.new }
{
    if sheet.len() < layout::SHEET_WORDS {
        return Err(Refusal::BrokenShape);
    }
    copy_into(sheet, 0, &[0u32; 7]);
    Ok(())
}

// A direct style of `count` entries.
pub fn push_style(
    sheet: &mut [u32],
    origin: u32,
    properties: &[u16],
    kinds: &[u32],
    numbers: &[u32],
    count: usize,
) -> Result<(), Refusal>
    ensures { Push (style_push_verdict sheet.old origin properties.now kinds.now numbers.now count) sheet.old (pushed_style sheet.old origin properties.now kinds.now numbers.now count) result sheet.new }
{
    let entries = EntryLists {
        properties,
        kinds,
        numbers,
    };
    admit::sources::check_style(sheet, origin, entries, count)?;
    group::held::put_style(sheet, origin, entries, count);
    Ok(())
}

// A group of one rule.
pub fn push_rule(
    sheet: &mut [u32],
    origin: u32,
    steps: &[u32],
    step_count: u32,
    combinators: &[u32],
    combinator_count: u32,
    properties: &[u16],
    kinds: &[u32],
    numbers: &[u32],
    entry_count: u32,
) -> Result<(), Refusal>
    ensures { Push (group_verdict sheet.old origin (given (step_count ∷ combinator_count ∷ entry_count ∷ []) steps.now combinators.now properties.now kinds.now numbers.now) 1) sheet.old (pushed_group sheet.old origin (given (step_count ∷ combinator_count ∷ entry_count ∷ []) steps.now combinators.now properties.now kinds.now numbers.now) 1) result sheet.new }
{
    let rule = [step_count, combinator_count, entry_count];
    push_rules(
        sheet,
        origin,
        &rule,
        1,
        steps,
        combinators,
        properties,
        kinds,
        numbers,
    )
}

// A group of rules, all or nothing. Three words a rule say how many steps, combinators and entries it has.
pub fn push_rules(
    sheet: &mut [u32],
    origin: u32,
    rules: &[u32],
    rule_count: usize,
    steps: &[u32],
    combinators: &[u32],
    properties: &[u16],
    kinds: &[u32],
    numbers: &[u32],
) -> Result<(), Refusal>
    ensures { Push (group_verdict sheet.old origin (given rules.now steps.now combinators.now properties.now kinds.now numbers.now) rule_count) sheet.old (pushed_group sheet.old origin (given rules.now steps.now combinators.now properties.now kinds.now numbers.now) rule_count) result sheet.new }
{
    let lists = GroupLists {
        rules,
        steps,
        combinators,
        entries: EntryLists {
            properties,
            kinds,
            numbers,
        },
    };
    admit::sources::check_group(sheet, origin, lists, rule_count)?;
    group::held::put_group(sheet, origin, lists, rule_count);
    Ok(())
}

// The sources of another sheet, after those that are there.
pub fn push_cascade(sheet: &mut [u32], cascade: &[u32]) -> Result<(), Refusal>
    ensures { Push (cascade_verdict sheet.old cascade.now) sheet.old (pushed_cascade sheet.old cascade.now) result sheet.new }
{
    joining::cascades::check_cascade(sheet, cascade)?;
    merge::held::put_cascade(sheet, cascade);
    Ok(())
}
