// The look-ups of a style's entries in lent lists: those of style.rs. Lists come one by one with a count: 2 refuses a count past any of them.
#![tactic(auto)]

ghost use Rattle.std.specs.Prelude.{◌≡◌, [], ◌∷◌};
ghost use Rattle.style.specs.Looking.{containing_told, position_told, kind_told, plain_told, resource_told, length_told, kind_of, plain_of, resource_of, style_answer, found, containing_of, position_of, Ids};

use lent::Refusal;
use lent::words::{wide, word};
use style::{StyleValueKind, StyleValueRef, held};

// `Style::len`
pub fn len(properties: &[u16], kinds: &[u32], numbers: &[u32], count: usize) -> Result<u32, Refusal>
    ensures { length_told result ≡ style_answer properties.now kinds.now numbers.now count (0 ∷ count ∷ []) }
{
    held::check_style(properties, kinds, numbers, count)?;
    Ok(count as u32)
}

// `Style::contains_id`
pub fn contains(
    properties: &[u16],
    kinds: &[u32],
    numbers: &[u32],
    count: usize,
    property: u16,
) -> Result<bool, Refusal>
    ensures { containing_told result ≡ containing_of properties.now kinds.now numbers.now count property }
{
    held::check_style(properties, kinds, numbers, count)?;
    Ok(held::place(properties, count, property) < count)
}

// Where the property's entry stands, by a binary search.
pub fn position(
    properties: &[u16],
    kinds: &[u32],
    numbers: &[u32],
    count: usize,
    property: u16,
) -> Result<Option<u32>, Refusal>
    ensures { position_told result ≡ position_of properties.now kinds.now numbers.now count property }
{
    held::check_style(properties, kinds, numbers, count)?;
    let at = held::place(properties, count, property);
    if at < count {
        return Ok(Some(at as u32));
    }
    Ok(None)
}

// `Style::value_kind`
pub fn value_kind(
    properties: &[u16],
    kinds: &[u32],
    numbers: &[u32],
    count: usize,
    property: u16,
) -> Result<Option<StyleValueKind>, Refusal>
    ensures { kind_told result ≡ style_answer properties.now kinds.now numbers.now count (kind_of (found properties.now kinds.now numbers.now count property)) }
{
    match position(properties, kinds, numbers, count, property)? {
        Some(at) => Ok(Some(held::kind_of(word(kinds, wide(at)), word(numbers, wide(at))))),
        None => Ok(None),
    }
}

// `Style::value_ref`: a value as a value, a resource as a resource, an expression as nothing.
pub fn value_ref(
    properties: &[u16],
    kinds: &[u32],
    numbers: &[u32],
    count: usize,
    property: u16,
) -> Result<Option<StyleValueRef>, Refusal>
    ensures { plain_told result ≡ style_answer properties.now kinds.now numbers.now count (plain_of (found properties.now kinds.now numbers.now count property)) }
{
    match position(properties, kinds, numbers, count, property)? {
        Some(at) => Ok(held::plain_of(word(kinds, wide(at)), word(numbers, wide(at)))),
        None => Ok(None),
    }
}

// `Style::resource_key`
pub fn resource_key(
    properties: &[u16],
    kinds: &[u32],
    numbers: &[u32],
    count: usize,
    property: u16,
) -> Result<Option<u32>, Refusal>
    ensures { resource_told result ≡ style_answer properties.now kinds.now numbers.now count (resource_of (found properties.now kinds.now numbers.now count property)) }
{
    match position(properties, kinds, numbers, count, property)? {
        Some(at) => Ok(held::resource_of(word(kinds, wide(at)), word(numbers, wide(at)))),
        None => Ok(None),
    }
}

// `Style::property_ids`: the part of the caller's list that holds them, empty where `len` refuses.
pub fn property_ids<'a>(
    properties: &'a [u16],
    kinds: &[u32],
    numbers: &[u32],
    count: usize,
) -> &'a [u16]
    ensures { Ids properties.now kinds.now numbers.now count properties.entry result }
{
    match held::check_style(properties, kinds, numbers, count) {
        Ok(()) => &properties[..count],
        Err(_) => &properties[..0],
    }
}
