// What is read out of a sheet.
use crate::lists::end;
use items::say;
use lent::Refusal;
use lent::held::part;
use lent::words::word;
use lines::text;
use reading::{MatchRule, StyleEntry, read};
use selector::SelectorCombinator;
use steps::SelectorStep;

// Entry i of a source, which is a direct style where `source` is 0, else a rule.
pub(crate) fn entry_of(
    sheet: &[u32],
    source: u32,
    number: u32,
    i: u32,
) -> Result<Option<StyleEntry>, Refusal> {
    if source == 0 {
        return read::style_entry(sheet, number, i);
    }
    read::rule_entry(sheet, number, i)
}

fn entry(out: &mut [u8], at: usize, answer: Result<Option<StyleEntry>, Refusal>) -> usize {
    match answer {
        Ok(Some(e)) => say::three(out, at, b"e", u32::from(e.property), e.kind, e.number),
        Ok(None) => at,
        Err(refusal) => say::refused(out, at, b"e", refusal),
    }
}

// A step's row: six words, and its ids.
fn row(out: &mut [u8], at: usize, words: &[u32]) -> usize {
    let start = text(out, at, b"t");
    let tags = say::numbers(out, start, part(words, 0, 6));
    let classes = say::numbers(out, tags, part(words, 6, end(words, 6, 4)));
    let pseudos = say::numbers(out, classes, part(words, 14, end(words, 14, 5)));
    say::end(out, pseudos)
}

fn step(out: &mut [u8], at: usize, answer: Result<Option<SelectorStep>, Refusal>) -> usize {
    match answer {
        Ok(Some(step)) => row(out, at, &step.row()),
        Ok(None) => at,
        Err(refusal) => say::refused(out, at, b"t", refusal),
    }
}

fn combinator(
    out: &mut [u8],
    at: usize,
    answer: Result<Option<SelectorCombinator>, Refusal>,
) -> usize {
    match answer {
        Ok(Some(SelectorCombinator::Child)) => say::one(out, at, b"c", 0),
        Ok(Some(SelectorCombinator::Descendant)) => say::one(out, at, b"c", 1),
        Ok(None) => at,
        Err(refusal) => say::refused(out, at, b"c", refusal),
    }
}

// What `line` says of each number below n, one after another.
fn each<F: FnMut(u32, &mut [u8], usize) -> usize>(
    n: u32,
    out: &mut [u8],
    at: usize,
    mut line: F,
) -> usize
    requires { F.IsAlwaysCallable line }
{
    let mut used = at;
    for i in 0..n {
        used = line(i, out, used);
    }
    used
}

// A direct style, and its entries.
fn style(sheet: &[u32], number: u32, out: &mut [u8], at: usize) -> usize {
    match read::style(sheet, number) {
        Ok(Some(s)) => {
            let used = say::three(out, at, b"d", s.origin, s.source_index, s.entry_count);
            each(s.entry_count, out, used, |i, out, at| {
                entry(out, at, read::style_entry(sheet, number, i))
            })
        }
        Ok(None) => at,
        Err(refusal) => say::refused(out, at, b"d", refusal),
    }
}

fn weight(sheet: &[u32], number: u32, ranking: u32, out: &mut [u8], at: usize) -> usize {
    match read::rule_weight(sheet, number, ranking) {
        Ok(s) => say::line(out, at, b"w", &[s.0, s.1, s.2, s.3]),
        Err(refusal) => say::refused(out, at, b"w", refusal),
    }
}

fn own(out: &mut [u8], at: usize, r: MatchRule) -> usize {
    let list = [
        r.origin,
        r.source_index,
        r.order,
        r.step_count,
        r.entry_count,
    ];
    say::line(out, at, b"r", &list)
}

// A rule's selector, entries and weights; a combinator stands after each step but the last.
fn rest(sheet: &[u32], number: u32, r: MatchRule, out: &mut [u8], at: usize) -> usize {
    let a = each(r.step_count, out, at, |i, out, at| {
        step(out, at, read::rule_step(sheet, number, i))
    });
    let b = each(r.step_count, out, a, |i, out, at| {
        combinator(out, at, read::rule_combinator(sheet, number, i))
    });
    let c = each(r.entry_count, out, b, |i, out, at| {
        entry(out, at, read::rule_entry(sheet, number, i))
    });
    let d = weight(sheet, number, 0, out, c);
    weight(sheet, number, 1, out, d)
}

fn rule(sheet: &[u32], number: u32, out: &mut [u8], at: usize) -> usize {
    match read::rule(sheet, number) {
        Ok(r) => {
            let used = own(out, at, r);
            rest(sheet, number, r, out, used)
        }
        Err(refusal) => say::refused(out, at, b"r", refusal),
    }
}

// Everything in a sheet of so many rules and direct styles.
fn all_of(sheet: &[u32], n: u32, m: u32, out: &mut [u8], at: usize) -> usize {
    let is_empty = read::is_empty(sheet).unwrap_or(false);
    let start = say::line(out, at, b"s", &[0, n, m, u32::from(is_empty)]);
    let used = each(m, out, start, |i, out, at| style(sheet, i, out, at));
    each(n, out, used, |i, out, at| rule(sheet, i, out, at))
}

pub(crate) fn all(sheet: &[u32], out: &mut [u8], at: usize) -> usize {
    match read::rule_count(sheet) {
        Ok(n) => all_of(sheet, n, read::style_count(sheet).unwrap_or(0), out, at),
        Err(refusal) => say::refused(out, at, b"s", refusal),
    }
}

fn own_line(sheet: &[u32], number: u32, out: &mut [u8], at: usize) -> usize {
    match read::rule(sheet, number) {
        Ok(r) => own(out, at, r),
        Err(refusal) => say::refused(out, at, b"r", refusal),
    }
}

// A rule by its number, and its weight.
pub(crate) fn one(body: &[u32], sheet: &[u32], out: &mut [u8], at: usize) -> usize {
    let number = word(body, 1);
    let used = own_line(sheet, number, out, at);
    weight(sheet, number, word(body, 2), out, used)
}
