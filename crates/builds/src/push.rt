// What is done to a sheet.
use crate::lists::{Lists, list};
use builder::{push_cascade, push_rule, push_rules, push_style};
use items::halves::halves;
use items::said::Said;
use items::{MOST, said};
use lent::Refusal;
use lent::words::{put, wide, word};

const STYLE: Lists = Lists {
    lengths: 3,
    begin: 6,
};

const GROUP: Lists = Lists {
    lengths: 3,
    begin: 9,
};

const RULE: Lists = Lists {
    lengths: 5,
    begin: 10,
};

// The tag and 0, or the refusal.
fn pushed(out: &mut [u8], at: usize, tag: &[u8], pushing: Result<(), Refusal>) -> usize {
    said::line(out, at, tag, Said::from(pushing))
}

pub(crate) fn new(sheet: &mut [u32], out: &mut [u8], at: usize) -> usize {
    let pushing = builder::new(sheet);
    pushed(out, at, b"new", pushing)
}

fn style_of(body: &[u32], properties: &[u16], sheet: &mut [u32]) -> Result<(), Refusal> {
    let origin = word(body, 1);
    let count = wide(word(body, 2));
    let kinds = list(body, STYLE, 4);
    let numbers = list(body, STYLE, 5);
    push_style(sheet, origin, properties, kinds, numbers, count)
}

fn group_of(body: &[u32], properties: &[u16], sheet: &mut [u32]) -> Result<(), Refusal> {
    let origin = word(body, 1);
    let count = wide(word(body, 2));
    let rules = list(body, GROUP, 3);
    let steps = list(body, GROUP, 4);
    let combinators = list(body, GROUP, 5);
    let kinds = list(body, GROUP, 7);
    let numbers = list(body, GROUP, 8);
    push_rules(
        sheet,
        origin,
        rules,
        count,
        steps,
        combinators,
        properties,
        kinds,
        numbers,
    )
}

fn rule_of(body: &[u32], properties: &[u16], sheet: &mut [u32]) -> Result<(), Refusal> {
    let steps = list(body, RULE, 5);
    let combinators = list(body, RULE, 6);
    let kinds = list(body, RULE, 8);
    let numbers = list(body, RULE, 9);
    push_rule(
        sheet,
        word(body, 1),
        steps,
        word(body, 2),
        combinators,
        word(body, 3),
        properties,
        kinds,
        numbers,
        word(body, 4),
    )
}

// Where the property ids stand.
fn ids<'a>(op: u32, body: &'a [u32]) -> &'a [u32] {
    match op {
        2 => list(body, STYLE, 3),
        3 => list(body, GROUP, 6),
        _ => list(body, RULE, 7),
    }
}

fn with_ids(
    op: u32,
    body: &[u32],
    properties: &[u16],
    sheet: &mut [u32],
    out: &mut [u8],
    at: usize,
) -> usize {
    match op {
        2 => pushed(out, at, b"style", style_of(body, properties, sheet)),
        3 => pushed(out, at, b"group", group_of(body, properties, sheet)),
        _ => pushed(out, at, b"rule", rule_of(body, properties, sheet)),
    }
}

// A style, a group of rules or a rule.
pub(crate) fn source(op: u32, body: &[u32], sheet: &mut [u32], out: &mut [u8], at: usize) -> usize {
    let mut properties = [0u16; MOST];
    let n = halves(ids(op, body), &mut properties);
    with_ids(op, body, &properties[..n], sheet, out, at)
}

pub(crate) fn cascade(sheet: &mut [u32], other: &[u32], out: &mut [u8], at: usize) -> usize {
    let pushing = push_cascade(sheet, other);
    pushed(out, at, b"cascade", pushing)
}

// One word of the sheet; no line.
pub(crate) fn store(body: &[u32], sheet: &mut [u32], at: usize) -> usize {
    put(sheet, wide(word(body, 1)), word(body, 2));
    at
}
