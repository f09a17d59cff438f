// A style's checks one by one, and look-ups for callers that hold it to its sizes and order already.
// A count stands beside its list: 2 refuses one past it.
ghost use Rattle.std.specs.Prelude.{◌≡◌, false, [], ◌∷◌, ◌≤◌, length, take, Ok, Some};
ghost use Rattle.lent.specs.Refusals.{verdict_of};
ghost use Rattle.style.specs.Checks.{entries_over, kinds_over, properties_off, style_verdict};
ghost use Rattle.style.specs.Looking.{kind_told, plain_told, resource_told, place_of, plain_kind, resource_kind};

use crate::{StyleValueKind, StyleValueRef};
use idset::held::lower_bound;
use idset::{at_most, is_ascending};
use lent::Refusal;
use lent::words::widen_into;

// Whether a count of n entries is over its size or past one of the lists.
pub fn entries_over(properties: &[u16], kinds: &[u32], numbers: &[u32], n: usize) -> bool
    ensures { result ≡ entries_over properties.now kinds.now numbers.now n }
{
    if 32 < n {
        return true;
    }
    if properties.len() < n {
        return true;
    }
    if kinds.len() < n {
        return true;
    }
    numbers.len() < n
}

pub fn kinds_over(kinds: &[u32], n: usize) -> bool
    requires { n ≤ length kinds.now }
    ensures { result ≡ kinds_over kinds.now n }
{
    !at_most(&kinds[0..n], 3)
}

// The property ids are made words here and in `place`: an array that a function hands back would be copied once more.
pub fn properties_off(properties: &[u16], n: usize) -> bool
    requires { (n ≤ 32) × (n ≤ length properties.now) }
    ensures { result ≡ properties_off properties.now n }
{
    let mut words = [0u32; 32];
    widen_into(&mut words, 0, &properties[0..n]);
    !is_ascending(&words[0..n])
}

// 2, 6, 1.
pub fn check_style(
    properties: &[u16],
    kinds: &[u32],
    numbers: &[u32],
    n: usize,
) -> Result<(), Refusal>
    ensures { verdict_of result ≡ style_verdict properties.now kinds.now numbers.now n }
{
    if entries_over(properties, kinds, numbers, n) {
        return Err(Refusal::OverSize);
    }
    if kinds_over(kinds, n) {
        return Err(Refusal::CodeOutOfRange);
    }
    if properties_off(properties, n) {
        return Err(Refusal::NotAscending);
    }
    Ok(())
}

// Where the property stands among the first n; n where it does not.
pub fn place(properties: &[u16], n: usize, property: u16) -> usize
    requires n_bound { (n ≤ 32) × (n ≤ length properties.now) }
    requires n_value { properties_off properties.now n ≡ false }
    ensures { result ≡ place_of property (take n properties.now) }
{
    let mut words = [0u32; 32];
    widen_into(&mut words, 0, &properties[0..n]);
    let at = lower_bound(&words[0..n], property as u32);
    if at < n {
        if words[at] == property as u32 {
            return at;
        }
    }
    n
}

pub fn kind_of(kind: u32, number: u32) -> StyleValueKind
    requires { kind ≤ 3 }
    ensures { kind_told (Ok (Some result)) ≡ 0 ∷ kind ∷ number ∷ [] }
{
    match kind {
        0 => StyleValueKind::Value(number),
        1 => StyleValueKind::Resource(number),
        2 => StyleValueKind::Expr(number),
        _ => StyleValueKind::ResourceExpr(number),
    }
}

pub fn plain_of(kind: u32, number: u32) -> Option<StyleValueRef>
    ensures { plain_told (Ok result) ≡ plain_kind kind number }
{
    match kind {
        0 => Some(StyleValueRef::Value(number)),
        1 => Some(StyleValueRef::Resource(number)),
        _ => None,
    }
}

pub fn resource_of(kind: u32, number: u32) -> Option<u32>
    ensures { resource_told (Ok result) ≡ resource_kind kind number }
{
    if kind == 1 { Some(number) } else { None }
}
