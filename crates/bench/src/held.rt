// The cores. The Rust caller keeps what they require. Numbers and slices only, as C takes them.
ghost use Rattle.std.specs.Prelude.{◌≡◌, true, ◌<◌};
ghost use Rattle.idset.specs.Buffers.{Holds};
ghost use Rattle.selector.specs.Rows.{row_at};
ghost use Rattle.selector.specs.Checks.{row_fits, tags_ascend};
ghost use Rattle.sheet.specs.Shape.{sheet_shape};
ghost use Rattle.table.specs.Tables.{table, matched_at, states_in};
ghost use Rattle.table.specs.Shape.{table_shape};
ghost use Rattle.looking.specs.Calls.{winner_in};
ghost use Rattle.cascade.specs.Calls.{changed_in};
ghost use Rattle.bench.specs.Numbers.{settled_number, EntersHeld, Copied};
ghost use Rattle.bench.specs.Winners.{best_number, place_number};

use crate::REFUSED;
use crate::winning::{NOBODY, direct};
use lent::words::{copy_into, wide};
use sheet::Sheet;
use winners::{Best, Source};

fn number_of(settled: Option<u32>) -> u32
    ensures { result ≡ settled_number settled }
{
    settled.unwrap_or(REFUSED)
}

// The number of the child.
pub fn bench_held_enter(
    sheet: &[u32],
    head: &mut [u32],
    states: &mut [u32],
    cursors: &mut [u32],
    matched: &mut [u32],
    transitions: &mut [u32],
    parent: u32,
    row: &[u32],
) -> u32
    requires sheet_value { (sheet_shape sheet.now ≡ true) × (table_shape sheet.now (table head.old states.old cursors.old matched.old transitions.old) ≡ true) × (parent < states_in head.old) }
    requires row_value { (row_fits 16 row.now 0 ≡ true) × (tags_ascend (row_at 16 row.now 0) ≡ true) }
    ensures { EntersHeld sheet.now (table head.old states.old cursors.old matched.old transitions.old) parent row.now result (table head.new states.new cursors.new matched.new transitions.new) }
{
    let settled = entering::held::enter_subject(
        Sheet { words: sheet },
        head,
        states,
        cursors,
        matched,
        transitions,
        parent,
        row,
    );
    number_of(settled)
}

// The matched rules of a state, copied; how many there are.
pub fn bench_held_matching(states: &[u32], matched: &[u32], number: u32, out: &mut [u32]) -> usize
    ensures { Copied (matched_at states.now matched.now number) out.old result out.new }
{
    let list = matcher::held::matching_rules(states, matched, number);
    copy_into(out, 0, list);
    list.len()
}

fn best_number(best: Option<Best>) -> usize
    ensures { result ≡ best_number best }
{
    let Some(best) = best else {
        return NOBODY;
    };
    match best.source {
        Source::Style(d) => direct(d),
        Source::Rule(r) => wide(r),
    }
}

// The source that wins a property in a state.
pub fn bench_held_winner(
    sheet: &[u32],
    head: &[u32],
    states: &[u32],
    cursors: &[u32],
    matched: &[u32],
    transitions: &[u32],
    number: u32,
    property: u16,
) -> usize
    requires sheet_value { (sheet_shape sheet.now ≡ true) × (table_shape sheet.now (table head.now states.now cursors.now matched.now transitions.now) ≡ true) }
    requires number_bound { number < states_in head.now }
    ensures { result ≡ place_number (winner_in sheet.now (table head.now states.now cursors.now matched.now transitions.now) number property) }
{
    let best = looking::held::winning_source(
        Sheet { words: sheet },
        head,
        states,
        cursors,
        matched,
        transitions,
        number,
        property,
    );
    best_number(best)
}

// The properties that change from one state to another, into the front of `into`; how many there are.
pub fn bench_held_changed(
    sheet: &[u32],
    head: &[u32],
    states: &[u32],
    cursors: &[u32],
    matched: &[u32],
    transitions: &[u32],
    old: u32,
    new: u32,
    into: &mut [u16; 4096],
) -> usize
    requires sheet_value { (sheet_shape sheet.now ≡ true) × (table_shape sheet.now (table head.now states.now cursors.now matched.now transitions.now) ≡ true) }
    requires bound { (old < states_in head.now) × (new < states_in head.now) }
    ensures { Holds (changed_in sheet.now (table head.now states.now cursors.now matched.now transitions.now) old new) into.old result into.new }
{
    cascade::held::changed_properties(
        Sheet { words: sheet },
        head,
        states,
        cursors,
        matched,
        transitions,
        old,
        new,
        into,
    )
}
