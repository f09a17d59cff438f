// For callers that hold the sheet to its shape already.
ghost use Rattle.std.specs.Prelude.{◌≤◌, length};
ghost use Rattle.idset.specs.Buffers.{Holds};
ghost use Rattle.table.specs.Tables.{selectors_of};
ghost use Rattle.theory.specs.States.{starts};

use lent::lists::{cell, start_of};
use lent::words::word;
use sheet::{Sheet, layout};

// The root's cursors, one at step 0 of each rule with steps; how many there are.
pub fn roots(sheet: Sheet<'_>, cursors: &mut [u32]) -> usize
    requires { 256 ≤ length cursors.old }
    ensures { Holds (starts 0 (selectors_of sheet.entry.words.now)) cursors.old result cursors.new }
{
    let steps = layout::RULE_STEP_ENDS;
    let rules = word(sheet.words, layout::RULES);
    let mut used = 0;
    for r in 0..rules {
        if start_of(sheet.words, steps, r) < cell(sheet.words, steps, r) {
            cursors[used] = r * 8;
            used += 1;
        }
    }
    used
}
