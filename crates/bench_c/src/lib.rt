// The functions of `bench` under C names, for the Rust program in bench/: each calls its own, with the same clauses.
#![tactic(auto)]

ghost use Rattle.std.specs.Prelude.{◌≡◌, not, List, ℕ, drop, true, ◌<◌};
ghost use Rattle.typed.specs.Typed.{inputs_row, inputs_from};
ghost use Rattle.sheet.specs.Shape.{sheet_shape};
ghost use Rattle.sheet.specs.Laying.{emptied};
ghost use Rattle.given.specs.Given.{given};
ghost use Rattle.given.specs.Pushing.{empty_verdict, group_verdict, pushed_group, style_push_verdict, pushed_style};
ghost use Rattle.table.specs.Tables.{table, matched_at, states_in};
ghost use Rattle.table.specs.Calls.{broken};
ghost use Rattle.bench.specs.Numbers.{Outcome, Builds, Enters, rules_of, Copied, EntersHeld};
ghost use Rattle.idset.specs.Buffers.{Holds};
ghost use Rattle.selector.specs.Rows.{row_at};
ghost use Rattle.selector.specs.Checks.{row_fits, tags_ascend};
ghost use Rattle.table.specs.Shape.{table_shape};
ghost use Rattle.looking.specs.Calls.{winner_in};
ghost use Rattle.cascade.specs.Calls.{changed_in};
ghost use Rattle.bench.specs.Winners.{place_number, winner_number, Changes};

#[unsafe(no_mangle)]
pub extern "C" fn bench_new(sheet: &mut [u32]) -> u32
    ensures { Outcome (empty_verdict sheet.old) 0 sheet.old (emptied sheet.old) result sheet.new }
{
    bench::bench_new(sheet)
}

#[unsafe(no_mangle)]
pub extern "C" fn bench_push_style(
    sheet: &mut [u32],
    origin: u32,
    properties: &[u16],
    kinds: &[u32],
    numbers: &[u32],
    count: usize,
) -> u32
    ensures { Outcome (style_push_verdict sheet.old origin properties.now kinds.now numbers.now count) 0 sheet.old (pushed_style sheet.old origin properties.now kinds.now numbers.now count) result sheet.new }
{
    bench::bench_push_style(sheet, origin, properties, kinds, numbers, count)
}

#[unsafe(no_mangle)]
pub extern "C" fn bench_push_rules(
    sheet: &mut [u32],
    origin: u32,
    rules: &[u32],
    rule_count: usize,
    steps: &[u32],
    combinators: &[u32],
    properties: &[u16],
    kinds: &[u32],
    numbers: &[u32],
) -> u32
    ensures { Outcome (group_verdict sheet.old origin (given rules.now steps.now combinators.now properties.now kinds.now numbers.now) rule_count) 0 sheet.old (pushed_group sheet.old origin (given rules.now steps.now combinators.now properties.now kinds.now numbers.now) rule_count) result sheet.new }
{
    bench::bench_push_rules(
        sheet,
        origin,
        rules,
        rule_count,
        steps,
        combinators,
        properties,
        kinds,
        numbers,
    )
}

#[unsafe(no_mangle)]
pub extern "C" fn bench_build(
    sheet: &[u32],
    stamp: u32,
    head: &mut [u32; 8],
    states: &mut [u32],
    cursors: &mut [u32],
) -> u32
    ensures { (m t : List ℕ) → Builds sheet.now stamp (table head.old states.old cursors.old m t) result (table head.new states.new cursors.new m t) }
{
    bench::bench_build(sheet, stamp, head, states, cursors)
}

// The number of the child.
#[unsafe(no_mangle)]
pub extern "C" fn bench_enter(
    sheet: &[u32],
    head: &mut [u32; 8],
    states: &mut [u32],
    cursors: &mut [u32],
    matched: &mut [u32],
    transitions: &mut [u32],
    number: u32,
    stamp: u32,
    row: &[u32],
) -> u32
    ensures { Enters sheet.now (table head.old states.old cursors.old matched.old transitions.old) number stamp (inputs_row (inputs_from (drop 0 row.now))) result (table head.new states.new cursors.new matched.new transitions.new) }
{
    bench::bench_enter(
        sheet,
        head,
        states,
        cursors,
        matched,
        transitions,
        number,
        stamp,
        row,
    )
}

// The matched rules of a state, copied; how many there are.
#[unsafe(no_mangle)]
pub extern "C" fn bench_matching(
    sheet: &[u32],
    head: &[u32; 8],
    states: &[u32],
    cursors: &[u32],
    matched: &[u32],
    transitions: &[u32],
    number: u32,
    stamp: u32,
    out: &mut [u32],
) -> usize
    ensures { Copied (rules_of sheet.now (table head.now states.now cursors.now matched.now transitions.now) number stamp) out.old result out.new }
{
    bench::bench_matching(
        sheet,
        head,
        states,
        cursors,
        matched,
        transitions,
        number,
        stamp,
        out,
    )
}

#[unsafe(no_mangle)]
pub extern "C" fn bench_is_sheet(sheet: &[u32]) -> bool
    ensures { result ≡ sheet_shape sheet.now }
{
    bench::bench_is_sheet(sheet)
}

#[unsafe(no_mangle)]
pub extern "C" fn bench_is_table(
    sheet: &[u32],
    head: &[u32; 8],
    states: &[u32],
    cursors: &[u32],
    matched: &[u32],
    transitions: &[u32],
) -> bool
    ensures { result ≡ not (broken sheet.now (table head.now states.now cursors.now matched.now transitions.now)) }
{
    bench::bench_is_table(sheet, head, states, cursors, matched, transitions)
}

// The number of the child.
#[unsafe(no_mangle)]
pub extern "C" fn bench_held_enter(
    sheet: &[u32],
    head: &mut [u32],
    states: &mut [u32],
    cursors: &mut [u32],
    matched: &mut [u32],
    transitions: &mut [u32],
    parent: u32,
    row: &[u32],
) -> u32
    requires sheet_value { (sheet_shape sheet.now ≡ true) × (table_shape sheet.now (table head.old states.old cursors.old matched.old transitions.old) ≡ true) × (parent < states_in head.old) }
    requires row_value { (row_fits 16 row.now 0 ≡ true) × (tags_ascend (row_at 16 row.now 0) ≡ true) }
    ensures { EntersHeld sheet.now (table head.old states.old cursors.old matched.old transitions.old) parent row.now result (table head.new states.new cursors.new matched.new transitions.new) }
{
    bench::held::bench_held_enter(
        sheet,
        head,
        states,
        cursors,
        matched,
        transitions,
        parent,
        row,
    )
}

// The matched rules of a state, copied; how many there are.
#[unsafe(no_mangle)]
pub extern "C" fn bench_held_matching(
    states: &[u32],
    matched: &[u32],
    number: u32,
    out: &mut [u32],
) -> usize
    ensures { Copied (matched_at states.now matched.now number) out.old result out.new }
{
    bench::held::bench_held_matching(states, matched, number, out)
}

// The source that wins a property in a state.
#[unsafe(no_mangle)]
pub extern "C" fn bench_held_winner(
    sheet: &[u32],
    head: &[u32],
    states: &[u32],
    cursors: &[u32],
    matched: &[u32],
    transitions: &[u32],
    number: u32,
    property: u16,
) -> usize
    requires sheet_value { (sheet_shape sheet.now ≡ true) × (table_shape sheet.now (table head.now states.now cursors.now matched.now transitions.now) ≡ true) }
    requires number_bound { number < states_in head.now }
    ensures { result ≡ place_number (winner_in sheet.now (table head.now states.now cursors.now matched.now transitions.now) number property) }
{
    bench::held::bench_held_winner(
        sheet,
        head,
        states,
        cursors,
        matched,
        transitions,
        number,
        property,
    )
}

// The properties that change from one state to another, into the front of `into`; how many there are.
#[unsafe(no_mangle)]
pub extern "C" fn bench_held_changed(
    sheet: &[u32],
    head: &[u32],
    states: &[u32],
    cursors: &[u32],
    matched: &[u32],
    transitions: &[u32],
    old: u32,
    new: u32,
    into: &mut [u16; 4096],
) -> usize
    requires sheet_value { (sheet_shape sheet.now ≡ true) × (table_shape sheet.now (table head.now states.now cursors.now matched.now transitions.now) ≡ true) }
    requires bound { (old < states_in head.now) × (new < states_in head.now) }
    ensures { Holds (changed_in sheet.now (table head.now states.now cursors.now matched.now transitions.now) old new) into.old result into.new }
{
    bench::held::bench_held_changed(
        sheet,
        head,
        states,
        cursors,
        matched,
        transitions,
        old,
        new,
        into,
    )
}

// The source that wins a property in a state.
#[unsafe(no_mangle)]
pub extern "C" fn bench_winner(
    sheet: &[u32],
    head: &[u32; 8],
    states: &[u32],
    cursors: &[u32],
    matched: &[u32],
    transitions: &[u32],
    number: u32,
    stamp: u32,
    property: u16,
) -> usize
    ensures { result ≡ winner_number sheet.now (table head.now states.now cursors.now matched.now transitions.now) number stamp property }
{
    bench::winning::bench_winner(
        sheet,
        head,
        states,
        cursors,
        matched,
        transitions,
        number,
        stamp,
        property,
    )
}

// The properties that change from one state to another, listed; how many there are.
#[unsafe(no_mangle)]
pub extern "C" fn bench_changed(
    sheet: &[u32],
    head: &[u32; 8],
    states: &[u32],
    cursors: &[u32],
    matched: &[u32],
    transitions: &[u32],
    old: u32,
    new: u32,
    stamp: u32,
    out: &mut [u16],
) -> usize
    ensures { Changes sheet.now (table head.now states.now cursors.now matched.now transitions.now) old stamp new stamp out.old result out.new }
{
    bench::winning::bench_changed(
        sheet,
        head,
        states,
        cursors,
        matched,
        transitions,
        old,
        new,
        stamp,
        out,
    )
}
