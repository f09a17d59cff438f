// What an accepted push of a style or of a group writes: entries, steps, rows, and at last the counts. The checks have passed it.
ghost use Rattle.std.specs.Prelude.{◌≡◌, true, ℕ, ◌+◌, ◌*◌, ◌≤◌, ◌<◌, length, get_or};
ghost use mathlib.Core.List.{[], ◌∷◌, flat_map};
ghost use Rattle.std.proofs.lemmas.List.Edits.{sets};
ghost use Rattle.theory.specs.Lists.{sum_below};
ghost use Rattle.lent.specs.All.{all_below};
ghost use Rattle.selector.specs.Rows.{selector_of};
ghost use Rattle.selector.specs.Checks.{row_fits};
ghost use Rattle.sheet.specs.Layout.{step_place, RULE-ORIGIN, RULE-WORDS};
ghost use Rattle.sheet.specs.Laying.{step_words, steps_words, rule_words, lay_rules, lay_styles};
ghost use Rattle.given.specs.Given.{given, group_of, style_given, rules_given};
ghost use Rattle.given.specs.Pushing.{style_push_verdict, pushed_style, group_verdict, pushed_group};
ghost use Rattle.given.specs.Leaves.{Within, code_before, SelectorsFit, EntriesFit, step_total, entry_total, id_total};

use given::held::{counts, held_ids, put_counts, put_entries, put_row, put_step};
use given::{Counts, EntryLists, GroupLists};
use lent::held::rest;
use lent::words::{wide, word};
use sheet::layout;

// ---- a style

// The style's entries and its row.
fn put_style_parts(sheet: &mut [u32], c: Counts, origin: u32, entries: EntryLists, n: usize)
    requires { Within c × (n ≤ 32) × (n ≤ length entries.properties.now) × (n ≤ length entries.kinds.now) × (n ≤ length entries.numbers.now) }
    ensures { sheet.new ≡ lay_styles c.styles c.style_entries (style_given origin c.next entries.entry.properties.now entries.entry.kinds.now entries.entry.numbers.now n ∷ []) sheet.old }
{
    put_entries(
        sheet,
        layout::STYLE_ENTRY,
        layout::STYLE_ENTRY_ROOM,
        wide(c.style_entries),
        entries,
        n,
    );
    let row = [origin, c.next, c.style_entries + n as u32];
    put_row(sheet, layout::STYLE_ORIGIN, wide(c.styles), &row);
}

pub fn put_style(sheet: &mut [u32], origin: u32, entries: EntryLists, n: usize)
    requires { style_push_verdict sheet.old origin entries.properties.now entries.kinds.now entries.numbers.now n ≡ 0 }
    ensures { sheet.new ≡ pushed_style sheet.old origin entries.entry.properties.now entries.entry.kinds.now entries.entry.numbers.now n }
{
    let c = counts(sheet);
    put_style_parts(sheet, c, origin, entries, n);
    put_counts(
        sheet,
        Counts {
            styles: c.styles + 1,
            style_entries: c.style_entries + n as u32,
            next: c.next + 1,
            ..c
        },
    );
}

// ---- a group

// The code before step j of a rule whose combinators begin the list.
fn code_before(combinators: &[u32], j: usize) -> u32
    ensures { result ≡ code_before combinators.now j }
{
    if j == 0 {
        return 0;
    }
    word(combinators, j - 1)
}

// The n steps that begin the rows, after s steps.
fn put_selector(sheet: &mut [u32], s: usize, steps: &[u32], combinators: &[u32], n: usize)
    requires { (s ≤ 2048) × (n ≤ 8) × (all_below n (λ (k : ℕ). row_fits 8 steps.now (22 * k)) ≡ true) × ((j : ℕ) → j < n → code_before combinators.now j ≤ 1) }
    ensures { sheet.new ≡ sets sheet.old (step_place s) (flat_map step_words (selector_of steps.now combinators.now n)) }
{
    for j in 0..n {
        let code = code_before(combinators, j);
        put_step(sheet, (s + j) as u32, steps, 22 * j, code);
    }
}

// A group of n rules that the checks have passed, after the counts of the sheet that it comes into.
#[derive(Clone, Copy)]
struct Passed<'a> {
    c: Counts,
    lists: GroupLists<'a>,
    n: usize,
    ghost within: { Within c },
    ghost rules_room: { c.rules + n ≤ 256 },
    ghost steps_room: { c.steps + 8 * n ≤ 2048 },
    ghost selectors: { SelectorsFit (given lists.rules.now lists.steps.now lists.combinators.now [] [] []) n },
    ghost entries: { EntriesFit (given lists.rules.now [] [] [] [] []) n },
}

// The steps of its rules.
fn put_steps(sheet: &mut [u32], g: Passed)
    ensures { sheet.new ≡ sets sheet.old (step_place g.entry.c.steps) (steps_words (rules_given 0 0 (given g.entry.lists.rules.now g.entry.lists.steps.now g.entry.lists.combinators.now [] [] []) g.entry.n)) }
{
    let s = wide(g.c.steps);
    let mut p = 0;
    let mut c = 0;
    for k in 0..g.n {
        let i = 3 * k;
        let count = wide(word(g.lists.rules, i));
        put_selector(
            sheet,
            s + p,
            rest(g.lists.steps, 22 * p),
            rest(g.lists.combinators, c),
            count,
        );
        p += count;
        c += wide(word(g.lists.rules, i + 1));
    }
}

// The rows of its rules.
fn put_rule_rows(sheet: &mut [u32], g: Passed, origin: u32)
    ensures { sheet.new ≡ sets sheet.old (RULE-ORIGIN + RULE-WORDS * g.entry.c.rules) (rule_words g.entry.c.steps g.entry.c.entries (rules_given origin g.entry.c.next (given g.entry.lists.rules.now [] [] [] [] []) g.entry.n)) }
{
    let r = wide(g.c.rules);
    let mut step_end = wide(g.c.steps);
    let mut entry_end = wide(g.c.entries);
    for k in 0..g.n {
        let i = 3 * k;
        step_end += wide(word(g.lists.rules, i));
        entry_end += wide(word(g.lists.rules, i + 2));
        let row = [
            origin,
            g.c.next,
            k as u32,
            step_end as u32,
            entry_end as u32,
        ];
        put_row(sheet, layout::RULE_ORIGIN, r + k, &row);
    }
}

// Every third word from `which` on, summed over n rules; each is at most 32.
fn third_sum(rules: &[u32], which: usize, n: usize) -> usize
    requires { (n ≤ 256) × (which ≤ 2) × ((k : ℕ) → k < n → get_or rules.now (3 * k + which) 0 ≤ 32) }
    ensures { result ≡ sum_below (λ (k : ℕ). get_or rules.now (3 * k + which) 0) n }
{
    let mut sum = 0;
    for k in 0..n {
        sum += wide(word(rules, 3 * k + which));
    }
    sum
}

// The ids that its rules hold.
fn id_sum(g: Passed) -> usize
    ensures { result ≡ id_total (given g.entry.lists.rules.now g.entry.lists.steps.now g.entry.lists.combinators.now [] [] []) g.entry.n }
{
    let mut sum = 0;
    let mut p = 0;
    for k in 0..g.n {
        let count = wide(word(g.lists.rules, 3 * k));
        sum += held_ids(rest(g.lists.steps, 22 * p), count);
        p += count;
    }
    sum
}

// The counts after.
fn group_counts(g: Passed) -> Counts
    ensures { result ≡ record { rules = g.entry.c.rules + g.entry.n; steps = g.entry.c.steps + step_total (given g.entry.lists.rules.now [] [] [] [] []) g.entry.n; ids = g.entry.c.ids + id_total (given g.entry.lists.rules.now g.entry.lists.steps.now g.entry.lists.combinators.now [] [] []) g.entry.n; entries = g.entry.c.entries + entry_total (given g.entry.lists.rules.now [] [] [] [] []) g.entry.n; styles = g.entry.c.styles; style_entries = g.entry.c.style_entries; next = g.entry.c.next + 1 } }
{
    let c = g.c;
    let step_total = third_sum(g.lists.rules, 0, g.n);
    let entry_total = third_sum(g.lists.rules, 2, g.n);
    let id_total = id_sum(g);
    Counts {
        rules: c.rules + g.n as u32,
        steps: c.steps + step_total as u32,
        ids: c.ids + id_total as u32,
        entries: c.entries + entry_total as u32,
        next: c.next + 1,
        ..c
    }
}

// All but the counts.
fn put_parts(sheet: &mut [u32], g: Passed, origin: u32)
    requires { (entry_total (given g.lists.rules.now [] [] [] [] []) g.n ≤ length g.lists.entries.properties.now) × (entry_total (given g.lists.rules.now [] [] [] [] []) g.n ≤ length g.lists.entries.kinds.now) × (entry_total (given g.lists.rules.now [] [] [] [] []) g.n ≤ length g.lists.entries.numbers.now) }
    ensures { sheet.new ≡ lay_rules g.entry.c.rules g.entry.c.steps g.entry.c.entries (rules_given origin g.entry.c.next (group_of g.entry.lists) g.entry.n) sheet.old }
{
    put_entries(
        sheet,
        layout::ENTRY,
        layout::ENTRY_ROOM,
        wide(g.c.entries),
        g.lists.entries,
        third_sum(g.lists.rules, 2, g.n),
    );
    put_steps(sheet, g);
    put_rule_rows(sheet, g, origin);
}

// A group that the checks have passed.
pub fn put_group(sheet: &mut [u32], origin: u32, lists: GroupLists, n: usize)
    requires { group_verdict sheet.old origin (group_of lists) n ≡ 0 }
    ensures { sheet.new ≡ pushed_group sheet.old origin (group_of lists.entry) n }
{
    let g = Passed {
        c: counts(sheet),
        lists,
        n,
    };
    put_parts(sheet, g, origin);
    put_counts(sheet, group_counts(g));
}
