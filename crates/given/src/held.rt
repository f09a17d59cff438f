// For the pushes, which hold what is required already: rows, entries and counts written, and what is counted for them.
ghost use Rattle.std.specs.Prelude.{◌≡◌, true, ℕ, ◌+◌, ◌*◌, ◌≤◌, ◌<◌, length, get_or};
ghost use Rattle.std.proofs.lemmas.List.Edits.{sets};
ghost use Rattle.lent.specs.All.{all_below};
ghost use Rattle.selector.specs.Rows.{tag_of, tag_number};
ghost use Rattle.selector.specs.Checks.{row_fits};
ghost use Rattle.style.specs.Entries.{entries_of};
ghost use Rattle.sheet.specs.Layout.{step_place};
ghost use Rattle.sheet.specs.Laying.{step_words, lay_entries};
ghost use Rattle.given.specs.Pushing.{all_entries_in};
ghost use Rattle.given.specs.Leaves.{CountsOf, counts_list, part_of, Ids};

use crate::{Counts, EntryLists};
use idset::held::from_ids;
use lent::words::{copy_into, wide, widen_into, word};
use selector::held::{flag, ids};
use sheet::layout;

// The number of the tag whose flag is the word at `at`; 0 where it is not set.
fn tag(rows: &[u32], at: usize) -> u32
    requires { at < 4294967296 }
    ensures { result ≡ tag_number (tag_of (get_or rows.now at 0) (get_or rows.now (at + 1) 0)) }
{
    if word(rows, at) == 0 {
        return 0;
    }
    word(rows, at + 1)
}

// The row of the step at word `at`, its ids sorted and made unique, with the combinator before it.
fn step_row(rows: &[u32], at: usize, code: u32) -> [u32; 23]
    requires { (at < 4294967000) × (code ≤ 1) × (row_fits 8 rows.now at ≡ true) }
    ensures { result ≡ step_words (part_of rows.now at code) }
{
    let mut classes = [0u32; 8];
    let mut pseudos = [0u32; 8];
    let class_count = from_ids(ids(rows, at + 6, at + 4), &mut classes);
    let pseudo_count = from_ids(ids(rows, at + 14, at + 5), &mut pseudos);
    [
        flag(rows, at),
        tag(rows, at),
        flag(rows, at + 2),
        tag(rows, at + 2),
        class_count as u32,
        pseudo_count as u32,
        classes[0],
        classes[1],
        classes[2],
        classes[3],
        classes[4],
        classes[5],
        classes[6],
        classes[7],
        pseudos[0],
        pseudos[1],
        pseudos[2],
        pseudos[3],
        pseudos[4],
        pseudos[5],
        pseudos[6],
        pseudos[7],
        code,
    ]
}

// Step s of the sheet becomes the one at word `at`.
pub fn put_step(sheet: &mut [u32], s: u32, rows: &[u32], at: usize, code: u32)
    requires { (at < 4294967000) × (code ≤ 1) × (row_fits 8 rows.now at ≡ true) }
    ensures { sheet.new ≡ sets sheet.old (step_place s) (step_words (part_of rows.now at code)) }
{
    put_row(sheet, layout::STEP, wide(s), &step_row(rows, at, code));
}

// The counts of a sheet.
pub fn counts(sheet: &[u32]) -> Counts
    ensures { CountsOf sheet.now result }
{
    Counts {
        rules: word(sheet, layout::RULES),
        steps: word(sheet, layout::STEPS),
        ids: word(sheet, layout::IDS),
        entries: word(sheet, layout::ENTRIES),
        styles: word(sheet, layout::STYLES),
        style_entries: word(sheet, layout::STYLE_ENTRIES),
        next: word(sheet, layout::NEXT_SOURCE),
    }
}

pub fn put_counts(sheet: &mut [u32], c: Counts)
    ensures { sheet.new ≡ sets sheet.old 0 (counts_list c) }
{
    let words = [
        c.rules,
        c.steps,
        c.ids,
        c.entries,
        c.styles,
        c.style_entries,
        c.next,
    ];
    copy_into(sheet, 0, &words);
}

// Row k of the rows of N words that begin at word `base`.
pub fn put_row<const N: usize>(sheet: &mut [u32], base: u32, k: usize, row: &[u32; N])
    requires { (k < 4294967296) × (N ≤ 23) }
    ensures { sheet.new ≡ sets sheet.old (base + N * k) row.now }
{
    copy_into(sheet, wide(base) + N * k, row);
}

// The first n entries into the pool at `base`, after e.
pub fn put_entries(
    sheet: &mut [u32],
    base: usize,
    room: usize,
    e: usize,
    entries: EntryLists,
    n: usize,
)
    requires { (base ≤ 100000) × (room ≤ 4096) × (e ≤ 4096) × (n ≤ length entries.properties.now) × (n ≤ length entries.kinds.now) × (n ≤ length entries.numbers.now) }
    ensures { sheet.new ≡ lay_entries base room e (entries_of entries.entry.properties.now entries.entry.kinds.now entries.entry.numbers.now n) sheet.old }
{
    widen_into(sheet, base + e, &entries.properties[..n]);
    copy_into(sheet, base + room + e, &entries.kinds[..n]);
    copy_into(sheet, base + 2 * room + e, &entries.numbers[..n]);
}

// How many ids n steps hold, each step's sorted and made unique.
pub fn held_ids(steps: &[u32], n: usize) -> usize
    requires { (n ≤ 8) × (all_below n (λ (k : ℕ). row_fits 8 steps.now (22 * k)) ≡ true) }
    ensures { Ids steps.now n result }
{
    let s = weight::held::sum(steps, n);
    wide(s.1) + wide(s.0)
}

// The entries of the whole sheet.
pub fn all_entries(sheet: &[u32]) -> usize
    ensures { result ≡ all_entries_in sheet.now }
{
    wide(word(sheet, layout::ENTRIES)) + wide(word(sheet, layout::STYLE_ENTRIES))
}
