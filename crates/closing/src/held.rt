// For callers that hold the sheet to its shape, and the lent lists to what the records before have left there.
ghost use Rattle.std.specs.Prelude.{◌≡◌, true, cond, eqb};
ghost use Rattle.lent.specs.Refusals.{first_of, verdict_of};
ghost use Rattle.sheet.specs.Shape.{sheet_shape};
ghost use Rattle.given.specs.Given.{given};
ghost use Rattle.builder.specs.Answers.{Pushes};
ghost use Rattle.gather.specs.Opened.{nothing, direct, group, none, close_verdict, closed};
ghost use Rattle.gather.specs.Making.{direct_faults, group_faults};
ghost use Rattle.gather.specs.Memory.{open_of, kind_in, Sound, Closes};

use builder::held::{push_rules, push_style};
use gather::{Filled, OpenKind};
use lent::Refusal;
use lent::words::{wide, word};
use sheet::layout;

fn close_style(
    sheet: &mut [u32],
    f: Filled,
    rules: &[u32],
    steps: &[u32],
    combinators: &[u32],
    properties: &[u16],
    kinds: &[u32],
    numbers: &[u32],
    origin: u32,
) -> Result<(), Refusal>
    requires sheet_value { (sheet_shape sheet.old ≡ true) × (f.opening ≡ OpenKind.Direct origin) }
    requires sound { Sound f (given rules.now steps.now combinators.now properties.now kinds.now numbers.now) }
    ensures { Pushes (close_verdict sheet.old (open_of f (given rules.now steps.now combinators.now properties.now kinds.now numbers.now))) sheet.old (closed sheet.old (open_of f (given rules.now steps.now combinators.now properties.now kinds.now numbers.now))) (verdict_of result) sheet.new }
{
    let n = f.entries;
    push_style(
        sheet,
        origin,
        &properties[..n],
        &kinds[..n],
        &numbers[..n],
        n,
    )
}

fn close_group(
    sheet: &mut [u32],
    f: Filled,
    rules: &[u32],
    steps: &[u32],
    combinators: &[u32],
    properties: &[u16],
    kinds: &[u32],
    numbers: &[u32],
    origin: u32,
) -> Result<(), Refusal>
    requires sheet_value { (sheet_shape sheet.old ≡ true) × (f.opening ≡ OpenKind.Rules origin) }
    requires sound { Sound f (given rules.now steps.now combinators.now properties.now kinds.now numbers.now) }
    ensures { Pushes (close_verdict sheet.old (open_of f (given rules.now steps.now combinators.now properties.now kinds.now numbers.now))) sheet.old (closed sheet.old (open_of f (given rules.now steps.now combinators.now properties.now kinds.now numbers.now))) (verdict_of result) sheet.new }
{
    let r = 3 * f.rules;
    let s = 22 * f.steps;
    let c = f.combinators;
    let n = f.entries;
    push_rules(
        sheet,
        origin,
        &rules[..r],
        f.rules,
        &steps[..s],
        &combinators[..c],
        &properties[..n],
        &kinds[..n],
        &numbers[..n],
    )
}

fn close(
    sheet: &mut [u32],
    f: Filled,
    rules: &[u32],
    steps: &[u32],
    combinators: &[u32],
    properties: &[u16],
    kinds: &[u32],
    numbers: &[u32],
) -> Result<(), Refusal>
    requires sheet_value { sheet_shape sheet.old ≡ true }
    requires sound { Sound f (given rules.now steps.now combinators.now properties.now kinds.now numbers.now) }
    ensures { Pushes (close_verdict sheet.old (open_of f (given rules.now steps.now combinators.now properties.now kinds.now numbers.now))) sheet.old (closed sheet.old (open_of f (given rules.now steps.now combinators.now properties.now kinds.now numbers.now))) (verdict_of result) sheet.new }
{
    match f.opening {
        OpenKind::Nothing => Ok(()),
        OpenKind::Direct(origin) => close_style(
            sheet,
            f,
            rules,
            steps,
            combinators,
            properties,
            kinds,
            numbers,
            origin,
        ),
        OpenKind::Rules(origin) => close_group(
            sheet,
            f,
            rules,
            steps,
            combinators,
            properties,
            kinds,
            numbers,
            origin,
        ),
    }
}

// How many direct styles are open.
fn open_styles(f: Filled) -> usize
    ensures { result ≡ cond (eqb (kind_in f.opening) 1) 1 0 }
{
    match f.opening {
        OpenKind::Direct(_) => 1,
        _ => 0,
    }
}

pub fn take_direct(
    sheet: &mut [u32],
    f: Filled,
    rules: &[u32],
    steps: &[u32],
    combinators: &[u32],
    properties: &[u16],
    kinds: &[u32],
    numbers: &[u32],
    origin: u32,
) -> Result<Filled, Refusal>
    requires sheet_value { sheet_shape sheet.old ≡ true }
    requires sound { Sound f (given rules.now steps.now combinators.now properties.now kinds.now numbers.now) }
    ensures { Closes (first_of (direct_faults sheet.old (open_of f (given rules.now steps.now combinators.now properties.now kinds.now numbers.now)) origin)) sheet.old f (given rules.now steps.now combinators.now properties.now kinds.now numbers.now) (direct origin none) result sheet.new }
{
    if 7 < origin {
        return Err(Refusal::CodeOutOfRange);
    }
    if 64 <= wide(word(sheet, layout::STYLES)) + open_styles(f) {
        return Err(Refusal::OverSize);
    }
    close(
        sheet,
        f,
        rules,
        steps,
        combinators,
        properties,
        kinds,
        numbers,
    )?;
    Ok(Filled::opened(OpenKind::Direct(origin)))
}

pub fn take_group(
    sheet: &mut [u32],
    f: Filled,
    rules: &[u32],
    steps: &[u32],
    combinators: &[u32],
    properties: &[u16],
    kinds: &[u32],
    numbers: &[u32],
    origin: u32,
) -> Result<Filled, Refusal>
    requires sheet_value { sheet_shape sheet.old ≡ true }
    requires sound { Sound f (given rules.now steps.now combinators.now properties.now kinds.now numbers.now) }
    ensures { Closes (first_of (group_faults origin)) sheet.old f (given rules.now steps.now combinators.now properties.now kinds.now numbers.now) (group origin none) result sheet.new }
{
    if 7 < origin {
        return Err(Refusal::CodeOutOfRange);
    }
    close(
        sheet,
        f,
        rules,
        steps,
        combinators,
        properties,
        kinds,
        numbers,
    )?;
    Ok(Filled::opened(OpenKind::Rules(origin)))
}

pub fn take_end(
    sheet: &mut [u32],
    f: Filled,
    rules: &[u32],
    steps: &[u32],
    combinators: &[u32],
    properties: &[u16],
    kinds: &[u32],
    numbers: &[u32],
) -> Result<Filled, Refusal>
    requires sheet_value { sheet_shape sheet.old ≡ true }
    requires sound { Sound f (given rules.now steps.now combinators.now properties.now kinds.now numbers.now) }
    ensures { Closes 0 sheet.old f (given rules.now steps.now combinators.now properties.now kinds.now numbers.now) nothing result sheet.new }
{
    close(
        sheet,
        f,
        rules,
        steps,
        combinators,
        properties,
        kinds,
        numbers,
    )?;
    Ok(Filled::opened(OpenKind::Nothing))
}
