// A table built of a sheet: the root state alone. `build_matcher` and `Matcher::root_state` of matcher.rs.
#![tactic(auto)]

ghost use Rattle.std.specs.Prelude.{List, [], ◌∷◌, ◌≡◌, ℕ, ◌≤◌, length};
ghost use Rattle.std.proofs.lemmas.List.Edits.{sets};
ghost use Rattle.table.specs.Tables.{table};
ghost use Rattle.table.specs.Entering.{built_head};
ghost use Rattle.building.specs.Answers.{Build};

use lent::Refusal;
use lent::words::{copy_into, wide};
use matcher::MatchState;
use sheet::Sheet;
use table::held::roots;
use table::layout;

pub mod held;

// `Matcher::root_state`
pub fn root_state(stamp: u32) -> MatchState
    ensures { result ≡ record { number = 0; stamp = stamp } }
{
    MatchState { number: 0, stamp }
}

// The root alone, with this stamp and ranking, and nothing cached.
pub fn build(
    sheet: &[u32],
    stamp: u32,
    ranking: u32,
    head: &mut [u32; 8],
    states: &mut [u32],
    cursors: &mut [u32],
) -> Result<(), Refusal>
    ensures { (m t : List ℕ) → Build sheet.now stamp ranking (table head.old states.old cursors.old m t) result (table head.new states.new cursors.new m t) }
{
    let Some(sheet) = Sheet::of(sheet) else {
        return Err(Refusal::BrokenShape);
    };
    if 1 < ranking {
        return Err(Refusal::CodeOutOfRange);
    }
    let mut list = [0u32; 256];
    let n = roots(sheet, &mut list);
    if states.len() < wide(layout::STATE_WORDS) {
        return Err(Refusal::NoRoom);
    }
    if cursors.len() < n {
        return Err(Refusal::NoRoom);
    }
    put_root(stamp, ranking, head, states, cursors, &list[..n]);
    Ok(())
}

pub(crate) fn put_root(
    stamp: u32,
    ranking: u32,
    head: &mut [u32],
    states: &mut [u32],
    cursors: &mut [u32],
    roots: &[u32],
)
    requires { length roots.now ≤ 256 }
    ensures { (head.new ≡ built_head head.old stamp ranking (length roots.now)) × (states.new ≡ sets states.old 0 (length roots.now ∷ 0 ∷ 0 ∷ [])) × (cursors.new ≡ sets cursors.old 0 roots.now) }
{
    let n = roots.len() as u32;
    copy_into(head, 0, &[stamp, ranking, 1, n, 0, 0]);
    copy_into(states, 0, &[n, 0, 0]);
    copy_into(cursors, 0, roots);
}
