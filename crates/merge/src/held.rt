// What an accepted push of a cascade writes. The checks have passed it.
ghost use Rattle.std.specs.Prelude.{◌≡◌, ◌+◌, ◌*◌, ◌≤◌, ◌<◌, length};
ghost use mathlib.Core.List.{map, flat_map};
ghost use Rattle.std.proofs.lemmas.List.Edits.{sets};
ghost use Rattle.theory.specs.Lists.{spread};
ghost use Rattle.sheet.specs.Layout.{rules_in, steps_in, styles_in, step_place, RULE-ORIGIN, RULE-WORDS, STYLE-ORIGIN, STYLE-WORDS};
ghost use Rattle.sheet.specs.Sheets.{part_at, entry_at, sheet_of};
ghost use Rattle.sheet.specs.Laying.{step_words, rule_words, style_words, lay_entries, lay_rules, lay_styles};
ghost use Rattle.given.specs.Pushing.{indexes_of, shift_style, shift_rule, cascade_verdict, next_after, pushed_cascade};
ghost use Rattle.given.specs.Leaves.{Within, held_row, held_style_row, sum_counts};

use given::Counts;
use given::held::{counts, put_counts, put_row, put_step};
use joining::cascades::{is_bare, largest_index};
use lent::held::part;
use lent::lists::cell;
use lent::words::{copy_into, wide, word};
use sheet::shape::step_place;
use sheet::{Sheet, layout};

// What is added: the other sheet, in shape, after the counts of the one that it comes into.
#[derive(Clone, Copy)]
struct Addition<'a> {
    c: Counts,
    other: Sheet<'a>,
    ghost within: { Within c },
}

// The first n entries of a pool, after e.
fn put_pool(sheet: &mut [u32], base: usize, room: usize, e: u32, other: &[u32], n: u32)
    requires { (base ≤ 100000) × (room ≤ 4096) × (base + 3 * room ≤ length other.now) × (n ≤ room) }
    ensures { sheet.new ≡ lay_entries base room e (spread (entry_at other.now base room) 0 n) sheet.old }
{
    let properties = base;
    let kinds = base + room;
    let numbers = base + 2 * room;
    copy_into(
        sheet,
        properties + wide(e),
        part(other, properties, properties + wide(n)),
    );
    copy_into(sheet, kinds + wide(e), part(other, kinds, kinds + wide(n)));
    copy_into(
        sheet,
        numbers + wide(e),
        part(other, numbers, numbers + wide(n)),
    );
}

// The other sheet's steps.
fn put_held_steps(sheet: &mut [u32], a: Addition)
    ensures { sheet.new ≡ sets sheet.old (step_place a.entry.c.steps) (flat_map step_words (spread (part_at a.entry.other.words.now) 0 (steps_in a.entry.other.words.now))) }
{
    let n = word(a.other.words, layout::STEPS);
    for j in 0..n {
        let code = cell(a.other.words, layout::STEP_COMBINATORS, j);
        put_step(sheet, a.c.steps + j, a.other.words, step_place(j), code);
    }
}

// The row of rule k of the other sheet, after the rules that are held, its source index and its ends raised.
fn put_held_rule(sheet: &mut [u32], a: Addition, k: u32)
    requires { k < rules_in a.other.words.now }
    ensures { sheet.new ≡ sets sheet.old (RULE-ORIGIN + RULE-WORDS * (a.entry.c.rules + k)) (held_row a.entry.c a.entry.other.words.now k) }
{
    let origins = layout::RULE_ORIGINS;
    let sources = layout::RULE_SOURCES;
    let orders = layout::RULE_ORDERS;
    let steps = layout::RULE_STEP_ENDS;
    let entries = layout::RULE_ENTRY_ENDS;
    let row = [
        cell(a.other.words, origins, k),
        a.c.next + cell(a.other.words, sources, k),
        cell(a.other.words, orders, k),
        a.c.steps + cell(a.other.words, steps, k),
        a.c.entries + cell(a.other.words, entries, k),
    ];
    put_row(sheet, layout::RULE_ORIGIN, wide(a.c.rules + k), &row);
}

// The rows of the other sheet's rules.
fn put_held_rules(sheet: &mut [u32], a: Addition)
    ensures { sheet.new ≡ sets sheet.old (RULE-ORIGIN + RULE-WORDS * a.entry.c.rules) (rule_words a.entry.c.steps a.entry.c.entries (map (shift_rule a.entry.c.next) (sheet_of a.entry.other.words.now).rules)) }
{
    let n = word(a.other.words, layout::RULES);
    for k in 0..n {
        put_held_rule(sheet, a, k);
    }
}

// The row of direct style k of the other sheet.
fn put_held_style(sheet: &mut [u32], a: Addition, k: u32)
    requires { k < styles_in a.other.words.now }
    ensures { sheet.new ≡ sets sheet.old (STYLE-ORIGIN + STYLE-WORDS * (a.entry.c.styles + k)) (held_style_row a.entry.c a.entry.other.words.now k) }
{
    let origins = layout::STYLE_ORIGINS;
    let sources = layout::STYLE_SOURCES;
    let entries = layout::STYLE_ENTRY_ENDS;
    let row = [
        cell(a.other.words, origins, k),
        a.c.next + cell(a.other.words, sources, k),
        a.c.style_entries + cell(a.other.words, entries, k),
    ];
    put_row(sheet, layout::STYLE_ORIGIN, wide(a.c.styles + k), &row);
}

fn put_held_styles(sheet: &mut [u32], a: Addition)
    ensures { sheet.new ≡ sets sheet.old (STYLE-ORIGIN + STYLE-WORDS * a.entry.c.styles) (style_words a.entry.c.style_entries (map (shift_style a.entry.c.next) (sheet_of a.entry.other.words.now).styles)) }
{
    let n = word(a.other.words, layout::STYLES);
    for k in 0..n {
        put_held_style(sheet, a, k);
    }
}

// The other sheet's rules.
fn put_rules(sheet: &mut [u32], a: Addition)
    ensures { sheet.new ≡ lay_rules a.entry.c.rules a.entry.c.steps a.entry.c.entries (map (shift_rule a.entry.c.next) (sheet_of a.entry.other.words.now).rules) sheet.old }
{
    put_pool(
        sheet,
        layout::ENTRY,
        layout::ENTRY_ROOM,
        a.c.entries,
        a.other.words,
        word(a.other.words, layout::ENTRIES),
    );
    put_held_steps(sheet, a);
    put_held_rules(sheet, a);
}

// The other sheet's direct styles.
fn put_styles(sheet: &mut [u32], a: Addition)
    ensures { sheet.new ≡ lay_styles a.entry.c.styles a.entry.c.style_entries (map (shift_style a.entry.c.next) (sheet_of a.entry.other.words.now).styles) sheet.old }
{
    put_pool(
        sheet,
        layout::STYLE_ENTRY,
        layout::STYLE_ENTRY_ROOM,
        a.c.style_entries,
        a.other.words,
        word(a.other.words, layout::STYLE_ENTRIES),
    );
    put_held_styles(sheet, a);
}

// The next source index.
fn next_after(a: Addition) -> u32
    ensures { result ≡ next_after a.entry.c.next (indexes_of (sheet_of a.entry.other.words.now)) }
{
    if is_bare(a.other.words) {
        return a.c.next;
    }
    a.c.next + largest_index(a.other.words) + 1
}

// The counts after.
fn cascade_counts(a: Addition) -> Counts
    ensures { result ≡ sum_counts a.entry.c a.entry.other.words.now }
{
    let c = a.c;
    let o = counts(a.other.words);
    Counts {
        rules: c.rules + o.rules,
        steps: c.steps + o.steps,
        ids: c.ids + o.ids,
        entries: c.entries + o.entries,
        styles: c.styles + o.styles,
        style_entries: c.style_entries + o.style_entries,
        next: next_after(a),
    }
}

// A cascade that the checks have passed.
pub fn put_cascade(sheet: &mut [u32], other: &[u32])
    requires { cascade_verdict sheet.old other.now ≡ 0 }
    ensures { sheet.new ≡ pushed_cascade sheet.old other.now }
{
    let a = Addition {
        c: counts(sheet),
        other: Sheet { words: other },
    };
    put_rules(sheet, a);
    put_styles(sheet, a);
    put_counts(sheet, cascade_counts(a));
}
