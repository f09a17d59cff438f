// For callers that hold the sheet to its shape already.
ghost use Rattle.std.specs.Prelude.{◌≡◌, List, ℕ};
ghost use Rattle.table.specs.Tables.{table};
ghost use Rattle.table.specs.Entering.{built};

use crate::put_root;
use sheet::Sheet;
use table::held::roots;

// The root alone, with this stamp and ranking, and nothing cached.
pub fn build(
    sheet: Sheet<'_>,
    stamp: u32,
    ranking: u32,
    head: &mut [u32],
    states: &mut [u32],
    cursors: &mut [u32],
)
    ensures { (m t : List ℕ) → table head.new states.new cursors.new m t ≡ built sheet.entry.words.now stamp ranking (table head.old states.old cursors.old m t) }
{
    let mut list = [0u32; 256];
    let n = roots(sheet, &mut list);
    put_root(stamp, ranking, head, states, cursors, &list[..n]);
}
