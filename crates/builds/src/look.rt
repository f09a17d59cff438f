// The look-ups of a style.
ghost use Rattle.std.specs.Prelude.{◌≤◌};

use crate::lists::{Lists, list};
use crate::tell::entry_of;
use items::halves::{half, halves};
use items::said::Said;
use items::{MOST, said, say};
use lent::Refusal;
use lent::held::part;
use lent::words::{wide, widen_into, word};
use style::{StyleValueKind, StyleValueRef};

const LOOK: Lists = Lists {
    lengths: 2,
    begin: 5,
};

fn of_value_kind(answer: Result<Option<StyleValueKind>, Refusal>) -> Said {
    match answer {
        Ok(Some(StyleValueKind::Value(x))) => said::three(0, 0, x),
        Ok(Some(StyleValueKind::Resource(x))) => said::three(0, 1, x),
        Ok(Some(StyleValueKind::Expr(x))) => said::three(0, 2, x),
        Ok(Some(StyleValueKind::ResourceExpr(x))) => said::three(0, 3, x),
        Ok(None) => said::one(0),
        Err(refusal) => said::refused(refusal),
    }
}

fn of_value_ref(answer: Result<Option<StyleValueRef>, Refusal>) -> Said {
    match answer {
        Ok(Some(StyleValueRef::Value(x))) => said::three(0, 0, x),
        Ok(Some(StyleValueRef::Resource(x))) => said::three(0, 1, x),
        Ok(None) => said::one(0),
        Err(refusal) => said::refused(refusal),
    }
}

// At most 32.
fn ids(out: &mut [u8], at: usize, properties: &[u16]) -> usize {
    let mut words = [0u32; 32];
    widen_into(&mut words, 0, properties);
    say::line(out, at, b"lg", part(&words, 0, properties.len()))
}

// The lists of a style, how many entries are asked of them, and a property.
#[derive(Clone, Copy)]
struct Asked<'a> {
    properties: &'a [u16],
    kinds: &'a [u32],
    numbers: &'a [u32],
    count: usize,
    property: u16,
}

// `la` to `ld`
fn of_property(x: Asked, out: &mut [u8], at: usize) -> usize {
    let contains = lookups::contains(x.properties, x.kinds, x.numbers, x.count, x.property);
    let position = lookups::position(x.properties, x.kinds, x.numbers, x.count, x.property);
    let kind = lookups::value_kind(x.properties, x.kinds, x.numbers, x.count, x.property);
    let value = lookups::value_ref(x.properties, x.kinds, x.numbers, x.count, x.property);
    let a = said::line(out, at, b"la", Said::from(contains));
    let b = said::line(out, a, b"lb", Said::from(position));
    let c = said::line(out, b, b"lc", of_value_kind(kind));
    said::line(out, c, b"ld", of_value_ref(value))
}

// All seven lines.
fn look(x: Asked, out: &mut [u8], at: usize) -> usize {
    let d = of_property(x, out, at);
    let key = lookups::resource_key(x.properties, x.kinds, x.numbers, x.count, x.property);
    let e = said::line(out, d, b"le", Said::from(key));
    let length = lookups::len(x.properties, x.kinds, x.numbers, x.count);
    let f = said::line(out, e, b"lf", Said::from(length));
    let listed = lookups::property_ids(x.properties, x.kinds, x.numbers, x.count);
    ids(out, f, listed)
}

// The look-ups on lent lists.
pub(crate) fn lent_lists(body: &[u32], out: &mut [u8], at: usize) -> usize {
    let mut properties = [0u16; MOST];
    let n = halves(list(body, LOOK, 2), &mut properties);
    let asked = Asked {
        properties: &properties[..n],
        kinds: list(body, LOOK, 3),
        numbers: list(body, LOOK, 4),
        count: wide(word(body, 0)),
        property: half(word(body, 1)),
    };
    look(asked, out, at)
}

// The entries of a source, up to 32; how many.
fn gather(
    sheet: &[u32],
    source: u32,
    number: u32,
    properties: &mut [u16; 32],
    kinds: &mut [u32; 32],
    numbers: &mut [u32; 32],
) -> usize
    ensures { result ≤ 32 }
{
    for i in 0..32 {
        let Ok(Some(entry)) = entry_of(sheet, source, number, i as u32) else {
            return i;
        };
        properties[i] = entry.property;
        kinds[i] = entry.kind;
        numbers[i] = entry.number;
    }
    32
}

// The look-ups on the entries of a source.
pub(crate) fn source(body: &[u32], sheet: &[u32], out: &mut [u8], at: usize) -> usize {
    let mut properties = [0u16; 32];
    let mut kinds = [0u32; 32];
    let mut numbers = [0u32; 32];
    let n = gather(
        sheet,
        word(body, 1),
        word(body, 2),
        &mut properties,
        &mut kinds,
        &mut numbers,
    );
    let asked = Asked {
        properties: &properties[..n],
        kinds: &kinds[..n],
        numbers: &numbers[..n],
        count: n,
        property: half(word(body, 3)),
    };
    look(asked, out, at)
}
