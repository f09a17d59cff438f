// For callers that hold the table to its shape already.
ghost use Rattle.std.specs.Prelude.{◌≡◌};
ghost use Rattle.table.specs.Tables.{matched_at};

use lent::held::list_of;
use table::layout;

// The matched rules of the state with the number.
pub fn matching_rules<'a>(states: &[u32], matched: &'a [u32], number: u32) -> &'a [u32]
    ensures { result.now ≡ matched_at states.now matched.now number }
{
    let ends = layout::MATCHED_ENDS;
    list_of(states, ends, matched, number)
}
