// For callers that hold the sheet to its shape, and the lent lists to what the records before have left there.
// The six lists come apart: each kind of record writes to others of them.
ghost use Rattle.std.specs.Prelude.{◌≡◌, true, cond, ◌&&◌, ◌||◌, ◌+◌, ◌-◌, ◌*◌, ◌≤◌, ◌<◌, get_or, set, eqb, ltb};
ghost use Rattle.lent.specs.Refusals.{first_of};
ghost use Rattle.sheet.specs.Shape.{sheet_shape};
ghost use Rattle.given.specs.Given.{given};
ghost use Rattle.gather.specs.Opened.{last_of, with_rule, with_step, with_requirement, with_entry};
ghost use Rattle.gather.specs.Making.{rule_faults, step_faults, requirement_faults, entry_faults, in_step, in_group};
ghost use Rattle.gather.specs.Memory.{filled_of, open_of, kind_in, Sound, Adds};

use gather::{Filled, OpenKind};
use given::held::{all_entries, held_ids};
use lent::Refusal;
use lent::held::part;
use lent::words::{copy_into, put, wide, word};
use records::held::{half, item_over, put_item};
use sheet::layout;

pub fn take_rule(
    sheet: &[u32],
    f: Filled,
    rules: &mut [u32],
    steps: &[u32],
    combinators: &[u32],
    properties: &[u16],
    kinds: &[u32],
    numbers: &[u32],
) -> Result<Filled, Refusal>
    requires sheet_value { sheet_shape sheet.now ≡ true }
    requires sound { Sound f (given rules.old steps.now combinators.now properties.now kinds.now numbers.now) }
    ensures { Adds (first_of (rule_faults sheet.now (open_of f (given rules.old steps.now combinators.now properties.now kinds.now numbers.now)))) f (given rules.old steps.now combinators.now properties.now kinds.now numbers.now) (in_group with_rule (open_of f (given rules.old steps.now combinators.now properties.now kinds.now numbers.now))) result (given rules.new steps.now combinators.now properties.now kinds.now numbers.now) }
{
    let OpenKind::Rules(_) = f.opening else {
        return Err(Refusal::BadRecord(0));
    };
    if 256 <= wide(word(sheet, layout::RULES)) + f.rules {
        return Err(Refusal::OverSize);
    }
    copy_into(rules, 3 * f.rules, &[0u32; 3]);
    Ok(Filled {
        rules: f.rules + 1,
        ..f
    })
}

// A rule's first step: no combinator stands before it.
fn take_first_step(
    f: Filled,
    rules: &mut [u32],
    steps: &mut [u32],
    combinators: &[u32],
    properties: &[u16],
    kinds: &[u32],
    numbers: &[u32],
    code: u32,
) -> Result<Filled, Refusal>
    requires sound { Sound f (given rules.old steps.old combinators.now properties.now kinds.now numbers.now) }
    requires kind_value { (kind_in f.opening ≡ 2) × (1 ≤ f.rules) × (last_of (filled_of f (given rules.old steps.old combinators.now properties.now kinds.now numbers.now)) 0 ≡ 0) }
    ensures { Adds (first_of (step_faults (open_of f (given rules.old steps.old combinators.now properties.now kinds.now numbers.now)) code)) f (given rules.old steps.old combinators.now properties.now kinds.now numbers.now) (in_group (with_step code) (open_of f (given rules.old steps.old combinators.now properties.now kinds.now numbers.now))) result (given rules.new steps.new combinators.now properties.now kinds.now numbers.now) }
{
    if 0 < code {
        return Err(Refusal::BadRecord(0));
    }
    put(rules, 3 * f.rules - 3, 1);
    copy_into(steps, 22 * f.steps, &[0u32; 22]);
    Ok(Filled {
        steps: f.steps + 1,
        ..f
    })
}

// A later one, after n.
fn take_later_step(
    f: Filled,
    rules: &mut [u32],
    steps: &mut [u32],
    combinators: &mut [u32],
    properties: &[u16],
    kinds: &[u32],
    numbers: &[u32],
    n: u32,
    code: u32,
) -> Result<Filled, Refusal>
    requires sound { Sound f (given rules.old steps.old combinators.old properties.now kinds.now numbers.now) }
    requires kind_value { (kind_in f.opening ≡ 2) × (1 ≤ f.rules) × (n ≡ last_of (filled_of f (given rules.old steps.old combinators.old properties.now kinds.now numbers.now)) 0) × (1 ≤ n) }
    ensures { Adds (first_of (step_faults (open_of f (given rules.old steps.old combinators.old properties.now kinds.now numbers.now)) code)) f (given rules.old steps.old combinators.old properties.now kinds.now numbers.now) (in_group (with_step code) (open_of f (given rules.old steps.old combinators.old properties.now kinds.now numbers.now))) result (given rules.new steps.new combinators.new properties.now kinds.now numbers.now) }
{
    if 1 < code {
        return Err(Refusal::BadRecord(0));
    }
    if 8 <= n {
        return Err(Refusal::OverSize);
    }
    let at = 3 * f.rules - 3;
    put(rules, at, n + 1);
    put(rules, at + 1, word(rules, at + 1) + 1);
    copy_into(steps, 22 * f.steps, &[0u32; 22]);
    put(combinators, f.combinators, code);
    Ok(Filled {
        steps: f.steps + 1,
        combinators: f.combinators + 1,
        ..f
    })
}

pub fn take_step(
    f: Filled,
    rules: &mut [u32],
    steps: &mut [u32],
    combinators: &mut [u32],
    properties: &[u16],
    kinds: &[u32],
    numbers: &[u32],
    code: u32,
) -> Result<Filled, Refusal>
    requires { Sound f (given rules.old steps.old combinators.old properties.now kinds.now numbers.now) }
    ensures { Adds (first_of (step_faults (open_of f (given rules.old steps.old combinators.old properties.now kinds.now numbers.now)) code)) f (given rules.old steps.old combinators.old properties.now kinds.now numbers.now) (in_group (with_step code) (open_of f (given rules.old steps.old combinators.old properties.now kinds.now numbers.now))) result (given rules.new steps.new combinators.new properties.now kinds.now numbers.now) }
{
    let OpenKind::Rules(_) = f.opening else {
        return Err(Refusal::BadRecord(0));
    };
    if f.rules == 0 {
        return Err(Refusal::BadRecord(0));
    }
    let n = word(rules, 3 * f.rules - 3);
    if n == 0 {
        return take_first_step(
            f,
            rules,
            steps,
            combinators,
            properties,
            kinds,
            numbers,
            code,
        );
    }
    take_later_step(
        f,
        rules,
        steps,
        combinators,
        properties,
        kinds,
        numbers,
        n,
        code,
    )
}

// Whether the open group's last rule has a step.
fn in_step(f: Filled, rules: &[u32]) -> bool
    requires { f.rules ≤ 256 }
    ensures { result ≡ (eqb (kind_in f.opening) 2 && (ltb 0 f.rules && ltb 0 (get_or rules.now (3 * f.rules - 3) 0))) }
{
    let OpenKind::Rules(_) = f.opening else {
        return false;
    };
    f.rules != 0 && 0 < word(rules, 3 * f.rules - 3)
}

// Of the last step: its row is changed in a copy, for the sum of ids.
fn put_requirement(
    sheet: &[u32],
    f: Filled,
    rules: &[u32],
    steps: &mut [u32],
    combinators: &[u32],
    properties: &[u16],
    kinds: &[u32],
    numbers: &[u32],
    which: u32,
    id: u32,
) -> Result<Filled, Refusal>
    requires sheet_value { sheet_shape sheet.now ≡ true }
    requires sound { Sound f (given rules.now steps.old combinators.now properties.now kinds.now numbers.now) }
    requires numbers_value { (in_step (open_of f (given rules.now steps.old combinators.now properties.now kinds.now numbers.now)) ≡ true) × (which ≤ 3) }
    ensures { Adds (first_of (requirement_faults sheet.now (open_of f (given rules.now steps.old combinators.now properties.now kinds.now numbers.now)) which id)) f (given rules.now steps.old combinators.now properties.now kinds.now numbers.now) (in_group (with_requirement which id) (open_of f (given rules.now steps.old combinators.now properties.now kinds.now numbers.now))) result (given rules.now steps.new combinators.now properties.now kinds.now numbers.now) }
{
    let at = 22 * f.steps - 22;
    let mut row = [0u32; 22];
    copy_into(&mut row, 0, part(steps, at, at + 22));
    if item_over(&row, 8, which) {
        return Err(Refusal::OverSize);
    }
    let others = f.ids - held_ids(&row, 1);
    put_item(&mut row, 8, which, id);
    let ids = others + held_ids(&row, 1);
    if 8192 < wide(word(sheet, layout::IDS)) + ids {
        return Err(Refusal::OverSize);
    }
    copy_into(steps, at, &row);
    Ok(Filled { ids, ..f })
}

pub fn take_requirement(
    sheet: &[u32],
    f: Filled,
    rules: &[u32],
    steps: &mut [u32],
    combinators: &[u32],
    properties: &[u16],
    kinds: &[u32],
    numbers: &[u32],
    which: u32,
    id: u32,
) -> Result<Filled, Refusal>
    requires sheet_value { sheet_shape sheet.now ≡ true }
    requires sound { Sound f (given rules.now steps.old combinators.now properties.now kinds.now numbers.now) }
    ensures { Adds (first_of (requirement_faults sheet.now (open_of f (given rules.now steps.old combinators.now properties.now kinds.now numbers.now)) which id)) f (given rules.now steps.old combinators.now properties.now kinds.now numbers.now) (in_group (with_requirement which id) (open_of f (given rules.now steps.old combinators.now properties.now kinds.now numbers.now))) result (given rules.now steps.new combinators.now properties.now kinds.now numbers.now) }
{
    if !in_step(f, rules) {
        return Err(Refusal::BadRecord(0));
    }
    if 3 < which {
        return Err(Refusal::BadRecord(0));
    }
    put_requirement(
        sheet,
        f,
        rules,
        steps,
        combinators,
        properties,
        kinds,
        numbers,
        which,
        id,
    )
}

// Whether a direct style or a rule is open.
fn in_style(f: Filled) -> bool
    ensures { result ≡ (eqb (kind_in f.opening) 1 || (eqb (kind_in f.opening) 2 && ltb 0 f.rules)) }
{
    match f.opening {
        OpenKind::Nothing => false,
        OpenKind::Direct(_) => true,
        OpenKind::Rules(_) => 0 < f.rules,
    }
}

// How many entries it has.
fn style_entries(f: Filled, rules: &[u32]) -> usize
    requires { (f.rules ≤ 256) × ((kind_in f.opening ≡ 1 → ⊥) → 1 ≤ f.rules) }
    ensures { result ≡ cond (eqb (kind_in f.opening) 1) f.entries (get_or rules.now (3 * f.rules - 3 + 2) 0) }
{
    if let OpenKind::Direct(_) = f.opening {
        return f.entries;
    }
    wide(word(rules, 3 * f.rules - 3 + 2))
}

// One more entry of the last rule; a direct style has no such count.
fn count_entry(f: Filled, rules: &mut [u32])
    requires rules_bound { f.rules ≤ 256 }
    requires le_rules { kind_in f.opening ≡ 2 → (1 ≤ f.rules) × (get_or rules.old (3 * f.rules - 3 + 2) 0 ≤ 4096) }
    ensures { rules.new ≡ cond (eqb (kind_in f.opening) 2) (set rules.old (3 * f.rules - 3 + 2) (get_or rules.old (3 * f.rules - 3 + 2) 0 + 1)) rules.old }
{
    let OpenKind::Rules(_) = f.opening else {
        return;
    };
    let at = 3 * f.rules - 3 + 2;
    put(rules, at, word(rules, at) + 1);
}

fn put_entry(
    sheet: &[u32],
    f: Filled,
    rules: &mut [u32],
    steps: &[u32],
    combinators: &[u32],
    properties: &mut [u16],
    kinds: &mut [u32],
    numbers: &mut [u32],
    property: u32,
    kind: u32,
    number: u32,
) -> Result<Filled, Refusal>
    requires sound { Sound f (given rules.old steps.now combinators.now properties.old kinds.old numbers.old) }
    requires property_bound { (property < 65536) × (kind ≤ 3) × (f.entries < 4096) }
    requires kind_value { first_of (entry_faults sheet.now (open_of f (given rules.old steps.now combinators.now properties.old kinds.old numbers.old)) kind) ≡ 0 }
    ensures { Adds (first_of (entry_faults sheet.now (open_of f (given rules.old steps.now combinators.now properties.old kinds.old numbers.old)) kind)) f (given rules.old steps.now combinators.now properties.old kinds.old numbers.old) (with_entry property kind number (open_of f (given rules.old steps.now combinators.now properties.old kinds.old numbers.old))) result (given rules.new steps.now combinators.now properties.new kinds.new numbers.new) }
{
    count_entry(f, rules);
    let at = f.entries;
    properties[at] = half(property);
    put(kinds, at, kind);
    put(numbers, at, number);
    Ok(Filled {
        entries: f.entries + 1,
        ..f
    })
}

pub fn take_entry(
    sheet: &[u32],
    f: Filled,
    rules: &mut [u32],
    steps: &[u32],
    combinators: &[u32],
    properties: &mut [u16],
    kinds: &mut [u32],
    numbers: &mut [u32],
    property: u32,
    kind: u32,
    number: u32,
) -> Result<Filled, Refusal>
    requires sheet_value { sheet_shape sheet.now ≡ true }
    requires sound { Sound f (given rules.old steps.now combinators.now properties.old kinds.old numbers.old) }
    requires property_bound { property < 65536 }
    ensures { Adds (first_of (entry_faults sheet.now (open_of f (given rules.old steps.now combinators.now properties.old kinds.old numbers.old)) kind)) f (given rules.old steps.now combinators.now properties.old kinds.old numbers.old) (with_entry property kind number (open_of f (given rules.old steps.now combinators.now properties.old kinds.old numbers.old))) result (given rules.new steps.now combinators.now properties.new kinds.new numbers.new) }
{
    if !in_style(f) {
        return Err(Refusal::BadRecord(0));
    }
    if 3 < kind {
        return Err(Refusal::BadRecord(0));
    }
    if 32 <= style_entries(f, rules) {
        return Err(Refusal::OverSize);
    }
    if 4096 <= all_entries(sheet) + f.entries {
        return Err(Refusal::OverSize);
    }
    put_entry(
        sheet,
        f,
        rules,
        steps,
        combinators,
        properties,
        kinds,
        numbers,
        property,
        kind,
        number,
    )
}
