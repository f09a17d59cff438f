// Winners and changes: the public calls. Numbers and slices only, as C takes them.
ghost use Rattle.std.specs.Prelude.{◌≡◌, ◌+◌};
ghost use Rattle.table.specs.Tables.{table};
ghost use Rattle.bench.specs.Winners.{winning_number, changing_number, winner_number, Changes};

use crate::REFUSED;
use lent::Refusal;
use lent::words::wide;
use looking::StyleSourceRef;
use matcher::MatchState;

// What stands for no source: no rule has this number.
pub const NOBODY: usize = 65537;

// The first direct style: rules have their own numbers, which are below.
pub const DIRECT: usize = 131072;

pub fn direct(number: u32) -> usize
    ensures { result ≡ 131072 + number }
{
    DIRECT + wide(number)
}

fn winning_number(winning: Result<Option<StyleSourceRef>, Refusal>) -> usize
    ensures { result ≡ winning_number winning }
{
    match winning {
        Ok(None) => NOBODY,
        Ok(Some(StyleSourceRef::Direct(d, _))) => direct(d),
        Ok(Some(StyleSourceRef::Rule(r, _))) => wide(r),
        Err(_) => wide(REFUSED),
    }
}

fn changing_number(changing: Result<usize, Refusal>) -> usize
    ensures { result ≡ changing_number changing }
{
    changing.unwrap_or(wide(REFUSED))
}

// The source that wins a property in a state.
pub fn bench_winner(
    sheet: &[u32],
    head: &[u32; 8],
    states: &[u32],
    cursors: &[u32],
    matched: &[u32],
    transitions: &[u32],
    number: u32,
    stamp: u32,
    property: u16,
) -> usize
    ensures { result ≡ winner_number sheet.now (table head.now states.now cursors.now matched.now transitions.now) number stamp property }
{
    let state = MatchState { number, stamp };
    let winning = looking::look::winning_source_for_id(
        sheet,
        head,
        states,
        cursors,
        matched,
        transitions,
        state,
        property,
    );
    winning_number(winning)
}

// The properties that change from one state to another, listed; how many there are.
pub fn bench_changed(
    sheet: &[u32],
    head: &[u32; 8],
    states: &[u32],
    cursors: &[u32],
    matched: &[u32],
    transitions: &[u32],
    old: u32,
    new: u32,
    stamp: u32,
    out: &mut [u16],
) -> usize
    ensures { Changes sheet.now (table head.now states.now cursors.now matched.now transitions.now) old stamp new stamp out.old result out.new }
{
    let before = MatchState { number: old, stamp };
    let after = MatchState { number: new, stamp };
    let changing = cascade::change::changed_properties(
        sheet,
        head,
        states,
        cursors,
        matched,
        transitions,
        before,
        after,
        out,
    );
    changing_number(changing)
}
