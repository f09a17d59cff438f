// For callers that lend zeroed memory.
// The six lists come apart: each kind of record writes to others of them.
ghost use Rattle.std.specs.Prelude.{◌≡◌, false, ◌≤◌, length, replicate};
ghost use Rattle.sheet.specs.Layout.{SHEET-WORDS};
ghost use Rattle.given.specs.Given.{Group, given};
ghost use Rattle.gather.specs.Memory.{Roomy};
ghost use Rattle.house.specs.Memory.{state_in, Before};
ghost use Rattle.loading.specs.Turns.{Feeds, Reads};

use gather::{Filled, OpenKind};
use house::held::is_over;
use house::{Making, Stage};
use making::held::feed_sheet;
use screen::held::{fill, shift};

// How many bytes are at hand, how far the sheet has come, and whether its part of the input is over. The other fields hold either way.
#[derive(Clone, Copy, Debug, PartialEq, Eq)]
pub struct Reading {
    pub have: usize,
    pub making: Making,
    pub over: bool,
}

fn first() -> Reading
    ensures { (result.have ≡ 0) × ((g : Group) → Roomy g → Before result.making (replicate SHEET-WORDS 0) g) }
{
    let making = Making {
        stage: Stage::Unbegun,
        ranking: 0,
        stamp: 0,
        offset: 0,
        at: 0,
        filled: Filled::opened(OpenKind::Nothing),
    };
    Reading {
        have: 0,
        making,
        over: false,
    }
}

// The records of the first n bytes.
fn sheet_first(
    input: &[u8],
    n: usize,
    m: Making,
    sheet: &mut [u32],
    rules: &mut [u32],
    steps: &mut [u32],
    combinators: &mut [u32],
    properties: &mut [u16],
    kinds: &mut [u32],
    numbers: &mut [u32],
) -> Making
    requires { (n ≤ length input.now) × Before m sheet.old (given rules.old steps.old combinators.old properties.old kinds.old numbers.old) }
    ensures { Feeds n result sheet.new (given rules.new steps.new combinators.new properties.new kinds.new numbers.new) }
{
    feed_sheet(
        &input[..n],
        m,
        sheet,
        rules,
        steps,
        combinators,
        properties,
        kinds,
        numbers,
    )
}

// Reads on, and takes the records that are whole then.
fn turn_sheet(
    input: &mut [u8],
    s: Reading,
    sheet: &mut [u32],
    rules: &mut [u32],
    steps: &mut [u32],
    combinators: &mut [u32],
    properties: &mut [u16],
    kinds: &mut [u32],
    numbers: &mut [u32],
) -> Reading
    requires { (s.have ≤ length input.old) × Before s.making sheet.old (given rules.old steps.old combinators.old properties.old kinds.old numbers.old) }
    ensures { Reads (length input.old) result sheet.new (given rules.new steps.new combinators.new properties.new kinds.new numbers.new) }
{
    let size = input.len();
    let n = fill(input, s.have);
    let before = s.making;
    let making = sheet_first(
        input,
        n,
        before,
        sheet,
        rules,
        steps,
        combinators,
        properties,
        kinds,
        numbers,
    );
    let at = making.at;
    shift(input, at);
    Reading {
        have: n - at,
        making,
        over: is_over(at, n, size),
    }
}

// Whether the sheet takes nothing more.
fn is_done(s: Reading) -> bool
    ensures { result ≡ false → state_in s.making.stage ≤ 1 }
{
    match s.making.stage {
        Stage::Stopped(_) | Stage::Done => true,
        Stage::Unbegun | Stage::Begun => s.over,
    }
}

// A proved loop has to end, and nothing says that the input does: the turns are counted, up to a number that no run reaches.
pub fn read_sheet(
    input: &mut [u8],
    sheet: &mut [u32],
    rules: &mut [u32],
    steps: &mut [u32],
    combinators: &mut [u32],
    properties: &mut [u16],
    kinds: &mut [u32],
    numbers: &mut [u32],
) -> Reading
    requires { (sheet.old ≡ replicate SHEET-WORDS 0) × Roomy (given rules.old steps.old combinators.old properties.old kinds.old numbers.old) }
    ensures { Reads (length input.old) result sheet.new (given rules.new steps.new combinators.new properties.new kinds.new numbers.new) }
{
    let mut s = first();
    for _ in 0..u64::MAX {
        s = turn_sheet(
            input,
            s,
            sheet,
            rules,
            steps,
            combinators,
            properties,
            kinds,
            numbers,
        );
        if is_done(s) {
            return s;
        }
    }
    s
}
