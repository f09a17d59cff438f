// Reads house records from standard input, and prints what 01 says: child states and their rules, changes, winners, refusals.
#![tactic(auto)]

ghost use Rattle.std.specs.Prelude.{◌≡◌, true, ◌≤◌, length};
ghost use Rattle.sheet.specs.Shape.{sheet_shape};
ghost use Rattle.house.specs.Memory.{state_in};

use house::Stage;
use loading::held::{Reading, read_sheet};
use touring::held::{answer, say_refused};

// What the sheet's part of the input leads to.
fn go_on(input: &mut [u8], s: Reading, sheet: &[u32], out: &mut [u8])
    requires have_in_bounds { (s.have ≤ length input.old) × (length out.old ≡ 131072) }
    requires sheet_value { state_in s.making.stage ≡ 3 → (sheet_shape sheet.now ≡ true) × (s.making.ranking ≤ 1) }
{
    let m = s.making;
    match m.stage {
        Stage::Done => answer(input, s.have, m, sheet, out),
        Stage::Stopped(refusal) => say_refused(out, refusal.number(), m.offset),
        Stage::Unbegun | Stage::Begun => say_refused(out, 10, m.offset),
    }
}

fn main() {
    let mut input = [0u8; 65536];
    let mut out = [0u8; 131072];
    let mut sheet = [0u32; 67016];
    let mut rules = [0u32; 768];
    let mut steps = [0u32; 45056];
    let mut combinators = [0u32; 2048];
    let mut properties = [0u16; 4096];
    let mut kinds = [0u32; 4096];
    let mut numbers = [0u32; 4096];
    let s = read_sheet(
        &mut input,
        &mut sheet,
        &mut rules,
        &mut steps,
        &mut combinators,
        &mut properties,
        &mut kinds,
        &mut numbers,
    );
    go_on(&mut input, s, &sheet, &mut out);
}
