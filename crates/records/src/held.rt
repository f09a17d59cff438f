// For callers that hold what they lend to its bounds already: a record at the front of bytes, and the rows that items fill.
ghost use Rattle.std.specs.Prelude.{◌≡◌, true, false, ◌≤◌, ◌<◌, ◌%◌, ◌^◌, get_or};
ghost use Rattle.records.specs.Records.{width, known, size_of, number_at, kind_of, is_whole, record_in, Narrow};
ghost use Rattle.records.specs.Rows.{count_place, id_place, tag_place, with_tag, with_id, with_item, item_over};

use crate::Record;
use lent::words::{copy_into, put, wide, word};

// How many bytes number i of a body has.
fn width(kind: u32, i: usize) -> usize
    requires { (kind ≤ 12) × (i ≤ 2) }
    ensures { (result ≡ width kind i) × (result ≤ 4) }
{
    let widths = [
        0usize, 0, 0, 1, 4, 0, 1, 0, 0, 1, 0, 0, 0, 0, 0, 1, 0, 0, 1, 4, 0, 2, 1, 4, 0, 0, 0, 1, 4,
        0, 4, 0, 0, 4, 4, 0, 4, 2, 0,
    ];
    widths[3 * (kind as usize) + i]
}

// Whether there is such a kind.
pub fn is_known(kind: u32) -> bool
    ensures { result ≡ known kind }
{
    if kind == 0 {
        return false;
    }
    kind < 13
}

// The bytes of a record of this kind, its kind byte among them.
pub fn size_of(kind: u32) -> usize
    requires { kind ≤ 12 }
    ensures { (result ≡ size_of kind) × (1 ≤ result) × (result ≤ 9) }
{
    1 + (width(kind, 0) + (width(kind, 1) + width(kind, 2)))
}

// The low n bytes of a word.
fn low(w: u32, n: usize) -> u32
    requires { n ≤ 4 }
    ensures { result ≡ w % 256 ^ n }
{
    match n {
        0 => 0,
        1 => w % 256,
        2 => w % 65536,
        3 => w % 16777216,
        _ => w,
    }
}

// The number in the n bytes from `at` on; a byte past the end is 0.
fn number(bytes: &[u8], at: usize, n: usize) -> u32
    requires { n ≤ 4 }
    ensures { result ≡ number_at bytes.now at n }
{
    low(lines::word(bytes, at), n)
}

// The kind byte at the front; 0 where there is none.
pub fn kind_of(bytes: &[u8]) -> u32
    ensures { (result ≡ kind_of bytes.now) × (result ≤ 255) }
{
    number(bytes, 0, 1)
}

// Whether a record at the front is not unknown, and not cut short.
pub fn is_whole(bytes: &[u8]) -> bool
    ensures { result ≡ is_whole bytes.now }
{
    let kind = kind_of(bytes);
    if !is_known(kind) {
        return false;
    }
    size_of(kind) <= bytes.len()
}

// The record at the front.
pub fn record_in(bytes: &[u8]) -> Record
    requires { is_whole bytes.now ≡ true }
    ensures { (result ≡ record_in bytes.now) × Narrow result }
{
    let kind = kind_of(bytes);
    let a = width(kind, 0);
    let b = width(kind, 1);
    let c = width(kind, 2);
    let first = number(bytes, 1, a);
    let second = number(bytes, 1 + a, b);
    let third = number(bytes, 1 + a + b, c);
    Record {
        kind,
        first,
        second,
        third,
    }
}

// A property id as the calls take it. By value: `try_from` would add a refusal that can't come.
pub fn half(x: u32) -> u16
    requires { x < 65536 }
    ensures { result ≡ x }
{
    x as u16
}

// ---- a row of a step or of a subject, item by item; it has room for `size` classes and `size` pseudos

// Where the count of classes (2) or of pseudos (3) stands.
fn count_place(which: u32) -> usize
    ensures { (result ≡ count_place which) × (result ≤ 5) }
{
    if which == 2 { 4 } else { 5 }
}

// Where the ids begin.
fn id_place(size: usize, which: u32) -> usize
    requires { size ≤ 16 }
    ensures { (result ≡ id_place size which) × (result ≤ 22) }
{
    if which == 2 { 6 } else { 6 + size }
}

// Whether a class or pseudo more would be over the size.
pub fn item_over(row: &[u32], size: u32, which: u32) -> bool
    ensures { result ≡ item_over size which row.now }
{
    if which < 2 {
        return false;
    }
    size <= word(row, count_place(which))
}

// Where the flag of the type (0) or of the part (1) stands.
fn tag_place(which: u32) -> usize
    ensures { result ≡ tag_place which }
{
    if which == 0 { 0 } else { 2 }
}

fn put_tag(row: &mut [u32], which: u32, id: u32)
    ensures { row.new ≡ with_tag which id row.old }
{
    copy_into(row, tag_place(which), &[1, id]);
}

fn put_id(row: &mut [u32], size: usize, which: u32, id: u32)
    requires { (size ≤ 16) × (get_or row.old (count_place which) 0 ≤ 16) }
    ensures { row.new ≡ with_id size which id row.old }
{
    let at = count_place(which);
    let n = word(row, at);
    put(row, id_place(size, which) + wide(n), id);
    put(row, at, n + 1);
}

// A type or part replaces the first; a class or pseudo comes after the others.
pub fn put_item(row: &mut [u32], size: usize, which: u32, id: u32)
    requires { (size ≤ 16) × (item_over size which row.old ≡ false) }
    ensures { row.new ≡ with_item size which id row.old }
{
    if which < 2 {
        put_tag(row, which, id);
        return;
    }
    put_id(row, size, which, id);
}
