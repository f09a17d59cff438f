// For callers that hold the sheet to its shape, and the lent lists to what the records before have left there.
// The six lists come apart: each kind of record writes to others of them.
ghost use Rattle.std.specs.Prelude.{◌≡◌, true};
ghost use Rattle.sheet.specs.Shape.{sheet_shape};
ghost use Rattle.given.specs.Given.{given};
ghost use Rattle.records.specs.Records.{Narrow};
ghost use Rattle.gather.specs.Making.{added_fault, added_to};
ghost use Rattle.gather.specs.Memory.{open_of, Sound, Adds, Takes};

use adding::held::{take_entry, take_requirement, take_rule, take_step};
use closing::held::{take_direct, take_end, take_group};
use gather::Filled;
use lent::Refusal;
use records::Record;

// Kinds 4 to 7; any other is misplaced.
fn take_added(
    sheet: &[u32],
    f: Filled,
    rules: &mut [u32],
    steps: &mut [u32],
    combinators: &mut [u32],
    properties: &mut [u16],
    kinds: &mut [u32],
    numbers: &mut [u32],
    item: Record,
) -> Result<Filled, Refusal>
    requires sheet_value { sheet_shape sheet.now ≡ true }
    requires sound { Sound f (given rules.old steps.old combinators.old properties.old kinds.old numbers.old) }
    requires narrow { Narrow item }
    ensures { Adds (added_fault sheet.now (open_of f (given rules.old steps.old combinators.old properties.old kinds.old numbers.old)) item) f (given rules.old steps.old combinators.old properties.old kinds.old numbers.old) (added_to (open_of f (given rules.old steps.old combinators.old properties.old kinds.old numbers.old)) item) result (given rules.new steps.new combinators.new properties.new kinds.new numbers.new) }
{
    if item.kind == 4 {
        return take_rule(
            sheet,
            f,
            rules,
            steps,
            combinators,
            properties,
            kinds,
            numbers,
        );
    }
    if item.kind == 5 {
        return take_step(
            f,
            rules,
            steps,
            combinators,
            properties,
            kinds,
            numbers,
            item.first,
        );
    }
    if item.kind == 6 {
        return take_requirement(
            sheet,
            f,
            rules,
            steps,
            combinators,
            properties,
            kinds,
            numbers,
            item.first,
            item.second,
        );
    }
    if item.kind == 7 {
        return take_entry(
            sheet,
            f,
            rules,
            steps,
            combinators,
            properties,
            kinds,
            numbers,
            item.first,
            item.second,
            item.third,
        );
    }
    Err(Refusal::BadRecord(0))
}

// A record after the first, up to kind 8.
pub fn take(
    sheet: &mut [u32],
    f: Filled,
    rules: &mut [u32],
    steps: &mut [u32],
    combinators: &mut [u32],
    properties: &mut [u16],
    kinds: &mut [u32],
    numbers: &mut [u32],
    item: Record,
) -> Result<Filled, Refusal>
    requires sheet_value { sheet_shape sheet.old ≡ true }
    requires sound { Sound f (given rules.old steps.old combinators.old properties.old kinds.old numbers.old) }
    requires narrow { Narrow item }
    ensures { Takes sheet.old f (given rules.old steps.old combinators.old properties.old kinds.old numbers.old) item result sheet.new (given rules.new steps.new combinators.new properties.new kinds.new numbers.new) }
{
    if item.kind == 2 {
        return take_direct(
            sheet,
            f,
            rules,
            steps,
            combinators,
            properties,
            kinds,
            numbers,
            item.first,
        );
    }
    if item.kind == 3 {
        return take_group(
            sheet,
            f,
            rules,
            steps,
            combinators,
            properties,
            kinds,
            numbers,
            item.first,
        );
    }
    if item.kind == 8 {
        return take_end(
            sheet,
            f,
            rules,
            steps,
            combinators,
            properties,
            kinds,
            numbers,
        );
    }
    take_added(
        sheet,
        f,
        rules,
        steps,
        combinators,
        properties,
        kinds,
        numbers,
        item,
    )
}
