// For measuring: the public calls under plain names, with numbers and slices only. `bench_c` exports them to C.
#![tactic(auto)]

ghost use Rattle.std.specs.Prelude.{◌≡◌, not, List, ℕ, drop};
ghost use Rattle.typed.specs.Typed.{inputs_row, inputs_from};
ghost use Rattle.sheet.specs.Shape.{sheet_shape};
ghost use Rattle.sheet.specs.Laying.{emptied};
ghost use Rattle.given.specs.Given.{given};
ghost use Rattle.given.specs.Pushing.{empty_verdict, group_verdict, pushed_group, style_push_verdict, pushed_style};
ghost use Rattle.table.specs.Tables.{table};
ghost use Rattle.table.specs.Calls.{broken};
ghost use Rattle.bench.specs.Numbers.{done_number, enter_number, Outcome, Builds, Enters, rules_of, Copied};

use lent::Refusal;
use lent::words::copy_into;
use matcher::MatchState;
use table::Table;
use typed::SelectorInputs;

pub mod held;
pub mod winning;

// What stands for every refusal: no state has this number.
pub const REFUSED: u32 = 65536;

fn done(answer: Result<(), Refusal>) -> u32
    ensures { result ≡ done_number answer }
{
    if answer.is_ok() { 0 } else { REFUSED }
}

fn entered(entering: Result<MatchState, Refusal>) -> u32
    ensures { result ≡ enter_number entering }
{
    match entering {
        Ok(state) => state.number,
        Err(_) => REFUSED,
    }
}

pub fn bench_new(sheet: &mut [u32]) -> u32
    ensures { Outcome (empty_verdict sheet.old) 0 sheet.old (emptied sheet.old) result sheet.new }
{
    let pushing = builder::new(sheet);
    done(pushing)
}

pub fn bench_push_style(
    sheet: &mut [u32],
    origin: u32,
    properties: &[u16],
    kinds: &[u32],
    numbers: &[u32],
    count: usize,
) -> u32
    ensures { Outcome (style_push_verdict sheet.old origin properties.now kinds.now numbers.now count) 0 sheet.old (pushed_style sheet.old origin properties.now kinds.now numbers.now count) result sheet.new }
{
    let pushing = builder::push_style(sheet, origin, properties, kinds, numbers, count);
    done(pushing)
}

pub fn bench_push_rules(
    sheet: &mut [u32],
    origin: u32,
    rules: &[u32],
    rule_count: usize,
    steps: &[u32],
    combinators: &[u32],
    properties: &[u16],
    kinds: &[u32],
    numbers: &[u32],
) -> u32
    ensures { Outcome (group_verdict sheet.old origin (given rules.now steps.now combinators.now properties.now kinds.now numbers.now) rule_count) 0 sheet.old (pushed_group sheet.old origin (given rules.now steps.now combinators.now properties.now kinds.now numbers.now) rule_count) result sheet.new }
{
    let pushing = builder::push_rules(
        sheet,
        origin,
        rules,
        rule_count,
        steps,
        combinators,
        properties,
        kinds,
        numbers,
    );
    done(pushing)
}

pub fn bench_build(
    sheet: &[u32],
    stamp: u32,
    head: &mut [u32; 8],
    states: &mut [u32],
    cursors: &mut [u32],
) -> u32
    ensures { (m t : List ℕ) → Builds sheet.now stamp (table head.old states.old cursors.old m t) result (table head.new states.new cursors.new m t) }
{
    let building = building::build(sheet, stamp, 0, head, states, cursors);
    done(building)
}

// The number of the child.
pub fn bench_enter(
    sheet: &[u32],
    head: &mut [u32; 8],
    states: &mut [u32],
    cursors: &mut [u32],
    matched: &mut [u32],
    transitions: &mut [u32],
    number: u32,
    stamp: u32,
    row: &[u32],
) -> u32
    ensures { Enters sheet.now (table head.old states.old cursors.old matched.old transitions.old) number stamp (inputs_row (inputs_from (drop 0 row.now))) result (table head.new states.new cursors.new matched.new transitions.new) }
{
    let parent = MatchState { number, stamp };
    let inputs = SelectorInputs::from_row(row, 0);
    let entering = entering::enter::enter_subject(
        sheet,
        head,
        states,
        cursors,
        matched,
        transitions,
        parent,
        inputs,
    );
    entered(entering)
}

// The matched rules of a state, copied; how many there are.
pub fn bench_matching(
    sheet: &[u32],
    head: &[u32; 8],
    states: &[u32],
    cursors: &[u32],
    matched: &[u32],
    transitions: &[u32],
    number: u32,
    stamp: u32,
    out: &mut [u32],
) -> usize
    ensures { Copied (rules_of sheet.now (table head.now states.now cursors.now matched.now transitions.now) number stamp) out.old result out.new }
{
    let state = MatchState { number, stamp };
    let list = matcher::rules::matching_rules(
        sheet,
        head,
        states,
        cursors,
        matched,
        transitions,
        state,
    );
    copy_into(out, 0, list);
    list.len()
}

pub fn bench_is_sheet(sheet: &[u32]) -> bool
    ensures { result ≡ sheet_shape sheet.now }
{
    sheet::shape::is_sheet(sheet)
}

pub fn bench_is_table(
    sheet: &[u32],
    head: &[u32; 8],
    states: &[u32],
    cursors: &[u32],
    matched: &[u32],
    transitions: &[u32],
) -> bool
    ensures { result ≡ not (broken sheet.now (table head.now states.now cursors.now matched.now transitions.now)) }
{
    let table = table::Table {
        head,
        states,
        cursors,
        matched,
        transitions,
    };
    table::shape::is_table(sheet, table)
}
