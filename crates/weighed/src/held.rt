// For callers that hold the sheet to its shape already: they lend it as a Sheet.
ghost use Rattle.std.specs.Prelude.{◌≡◌, ◌≤◌, ◌<◌};
ghost use Rattle.selector.specs.Rows.{row_at};
ghost use Rattle.selector.specs.Weighing.{Counted, Summed};
ghost use Rattle.sheet.specs.Layout.{rules_in, steps_in, step_place};
ghost use Rattle.sheet.specs.Sheets.{rule_at, counts_for, weight_for};
ghost use Rattle.weighed.specs.Weighing.{weight_from};

use lent::lists::{cell, start_of};
use lent::words::word;
use selector::Specificity;
use sheet::shape::step_place;
use sheet::{Sheet, layout};

// The counts of step s: its ids are sets already.
fn step_counts(sheet: Sheet<'_>, s: u32) -> Specificity
    requires { s < steps_in sheet.words.now }
    ensures { Counted (row_at 8 sheet.entry.words.now (step_place s)) result }
{
    let at = step_place(s);
    Specificity(
        word(sheet.words, at + 5),
        word(sheet.words, at + 4),
        word(sheet.words, at + 2),
        word(sheet.words, at),
    )
}

// Each count summed over a rule's steps.
fn sum(sheet: Sheet<'_>, number: u32) -> Specificity
    requires { number < rules_in sheet.words.now }
    ensures { Summed (counts_for (rule_at sheet.entry.words.now number).selector) result }
{
    let steps = layout::RULE_STEP_ENDS;
    let from = start_of(sheet.words, steps, number);
    let to = cell(sheet.words, steps, number);
    let mut pseudos = 0;
    let mut classes = 0;
    let mut parts = 0;
    let mut types = 0;
    for s in from..to {
        let c = step_counts(sheet, s);
        pseudos += c.0;
        classes += c.1;
        parts += c.2;
        types += c.3;
    }
    Specificity(pseudos, classes, parts, types)
}

// The weight of a rule in the ranking.
pub fn weight(sheet: Sheet<'_>, number: u32, ranking: u32) -> Specificity
    requires { (number < rules_in sheet.words.now) × (ranking ≤ 1) }
    ensures { weight_from result ≡ weight_for ranking (rule_at sheet.entry.words.now number) }
{
    let s = sum(sheet, number);
    if ranking == 0 {
        return s;
    }
    Specificity(s.1 + s.0, s.3 + s.2, 0, 0)
}
