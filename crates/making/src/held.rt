// For callers that lend zeroed memory first, and then what the calls before have left.
// The six lists come apart: each kind of record writes to others of them.
ghost use Rattle.std.specs.Prelude.{◌≡◌, cond, true, ◌+◌, ◌≤◌, ◌<◌, length, drop, eqb};
ghost use Rattle.given.specs.Given.{Group, given};
ghost use Rattle.records.specs.Records.{size_of, is_whole};
ghost use Rattle.house.specs.Memory.{state_in, Before, FedSheet};
ghost use Rattle.making.specs.Taking.{placed, refusing, Took, Past, Ahead, ItemAt, Opens, GoesOn};

use gather::Filled;
use house::held::{front, further};
use house::{Found, Making, Stage};
use lent::Refusal;
use lent::words::copy_into;
use records::Record;
use records::held::{is_whole, record_in, size_of};
use taking::held::take;

// The refusal of a record at this offset.
fn placed(refusal: Refusal, offset: u64) -> Refusal
    ensures { result ≡ placed refusal offset }
{
    match refusal {
        Refusal::BadRecord(_) => Refusal::BadRecord(offset),
        other => other,
    }
}

fn refused(m: Making, refusal: Refusal) -> Making
    ensures { result ≡ refusing m refusal }
{
    Making {
        stage: Stage::Stopped(placed(refusal, m.offset)),
        ..m
    }
}

// "1 sheet, first and once"
fn begin(m: Making, item: Record, sheet: &mut [u32]) -> Making
    ensures { (result.at ≡ m.at) × ((g : Group) → Before m sheet.old g → state_in m.stage ≡ 0 → Took m sheet.old g item result sheet.new g) }
{
    if item.kind != 1 {
        return refused(m, Refusal::BadRecord(m.offset));
    }
    if 1 < item.first {
        return refused(m, Refusal::CodeOutOfRange);
    }
    copy_into(sheet, 0, &[0u32; 7]);
    Making {
        stage: Stage::Begun,
        ranking: item.first,
        stamp: item.second,
        ..m
    }
}

fn stage_after(kind: u32) -> Stage
    ensures { result ≡ cond (eqb kind 8) Stage.Done Stage.Begun }
{
    if kind == 8 { Stage::Done } else { Stage::Begun }
}

// Past a record that was accepted.
fn past(m: Making, size: usize) -> Making
    requires { m.at + size < 18446744073709551616 }
    ensures { Past m size result }
{
    if let Stage::Stopped(_) = m.stage {
        return m;
    }
    Making {
        at: m.at + size,
        offset: further(m.offset, size),
        ..m
    }
}

// What stands ahead in a piece: nothing is, once the sheet has ended or a record was refused.
fn ahead(input: &[u8], m: Making) -> Found
    ensures { Ahead input.now m result }
{
    match m.stage {
        Stage::Stopped(_) | Stage::Done => Found::Short,
        Stage::Unbegun | Stage::Begun => {
            let at = m.at;
            if input.len() <= at {
                return Found::Short;
            }
            front(&input[at..])
        }
    }
}

// The record that stands ahead.
fn item_at(input: &[u8], at: usize) -> Record
    requires { (at < length input.now) × (is_whole (drop at input.now) ≡ true) }
    ensures { ItemAt input.now at result }
{
    record_in(&input[at..])
}

// A sheet's first record, where a piece begins with one.
fn open(input: &[u8], start: Making, sheet: &mut [u32]) -> Making
    ensures { (g : Group) → Before start sheet.old g → Opens input.now start sheet.old g result sheet.new }
{
    let m = Making { at: 0, ..start };
    let Stage::Unbegun = m.stage else {
        return m;
    };
    if !is_whole(input) {
        return m;
    }
    let item = record_in(input);
    let begun = begin(m, item, sheet);
    past(begun, size_of(item.kind))
}

// After a record that isn't the first: what was said of it decides.
fn go_on(m: Making, item: Record, taken: Result<Filled, Refusal>) -> Making
    requires { (item.kind ≤ 12) × (m.at + size_of item.kind < 18446744073709551616) }
    ensures { GoesOn m item taken result }
{
    match taken {
        Err(refusal) => refused(m, refusal),
        Ok(filled) => {
            let after = Making {
                stage: stage_after(item.kind),
                filled,
                ..m
            };
            past(after, size_of(item.kind))
        }
    }
}

// A byte that is no kind is refused.
fn end(m: Making, found: Found) -> Making
    ensures { (found ≡ Found.Unknown → result ≡ refusing m (Refusal.BadRecord m.offset)) × ((found ≡ Found.Unknown → ⊥) → result ≡ m) }
{
    match found {
        Found::Unknown => refused(m, Refusal::BadRecord(m.offset)),
        _ => m,
    }
}

// The records of a piece, up to the end of the sheet, a refusal, or what is not whole.
pub fn feed_sheet(
    input: &[u8],
    start: Making,
    sheet: &mut [u32],
    rules: &mut [u32],
    steps: &mut [u32],
    combinators: &mut [u32],
    properties: &mut [u16],
    kinds: &mut [u32],
    numbers: &mut [u32],
) -> Making
    requires { Before start sheet.old (given rules.old steps.old combinators.old properties.old kinds.old numbers.old) }
    ensures { FedSheet input.now start sheet.old (given rules.old steps.old combinators.old properties.old kinds.old numbers.old) result sheet.new (given rules.new steps.new combinators.new properties.new kinds.new numbers.new) }
{
    let mut m = open(input, start, sheet);
    let mut found = ahead(input, m);
    // What a record leads to says whether another stands ahead: nothing is counted.
    while let Found::Whole = found {
        let item = item_at(input, m.at);
        let filled = m.filled;
        let taken = take(
            sheet,
            filled,
            rules,
            steps,
            combinators,
            properties,
            kinds,
            numbers,
            item,
        );
        m = go_on(m, item, taken);
        found = ahead(input, m);
    }
    end(m, found)
}
