// Where a case's sections end.
ghost use Rattle.std.specs.Prelude.{◌≡◌, ◌≤◌, length};

use lent::words::wide;
use lines::word;

// Most rows in a section.
const MOST: usize = 300;

// The bytes of a row of each section: 22 words, one, 38.
pub(crate) const STEP_BYTES: usize = 88;

pub(crate) const CODE_BYTES: usize = 4;

pub(crate) const SUBJECT_BYTES: usize = 152;

// Where the section that begins at `at` ends, if each of its rows has `unit` bytes; `at` where it is cut short or too long.
pub(crate) fn end(input: &[u8], at: usize, unit: usize) -> usize
    requires { (at ≤ length input.now) × (unit ≤ 152) }
    ensures { (at ≤ result) × (result ≤ length input.now) }
{
    let left = input.len() - at;
    if left < 8 {
        return at;
    }
    let n = wide(word(input, at + 4));
    if MOST < n {
        return at;
    }
    let size = 8 + n * unit;
    if left < size { at } else { at + size }
}

// Whether the number of the section that begins at `at` is there, and too large.
fn is_long(input: &[u8], at: usize) -> bool
    requires { at ≤ length input.now }
{
    if input.len() - at < 8 {
        return false;
    }
    MOST < wide(word(input, at + 4))
}

// Whether the case that begins the bytes stops at a number that is too large. It is not whole.
pub(crate) fn is_too_long(input: &[u8]) -> bool {
    let steps = end(input, 0, STEP_BYTES);
    if steps == 0 {
        return is_long(input, 0);
    }
    let codes = end(input, steps, CODE_BYTES);
    if codes == steps {
        return is_long(input, steps);
    }
    is_long(input, codes)
}

// Where a case begins, where each of its sections ends, and how many bytes are at hand.
#[derive(Clone, Copy)]
pub(crate) struct Case {
    pub(crate) from: usize,
    pub(crate) steps: usize,
    pub(crate) codes: usize,
    pub(crate) path: usize,
    pub(crate) have: usize,
    ghost ordered: { (from ≤ steps) × (steps ≤ codes) × (codes ≤ path) × (path ≤ have) },
}

// No bytes: before the first case, and where none is whole.
pub(crate) fn nothing(at: usize, have: usize) -> Case
    requires { at ≤ have }
    ensures { (result.from ≡ at) × (result.steps ≡ at) × (result.codes ≡ at) × (result.path ≡ at) × (result.have ≡ have) }
{
    Case {
        from: at,
        steps: at,
        codes: at,
        path: at,
        have,
    }
}

// The case that begins at `at` of the bytes; no bytes where it is not whole.
fn within(bytes: &[u8], at: usize) -> Case
    requires { at ≤ length bytes.now }
    ensures { result.have ≡ length bytes.now }
{
    let have = bytes.len();
    let steps = end(bytes, at, STEP_BYTES);
    if steps <= at {
        return nothing(at, have);
    }
    let codes = end(bytes, steps, CODE_BYTES);
    if codes <= steps {
        return nothing(at, have);
    }
    let path = end(bytes, codes, SUBJECT_BYTES);
    if path <= codes {
        return nothing(at, have);
    }
    Case {
        from: at,
        steps,
        codes,
        path,
        have,
    }
}

// The same of the first `have` bytes.
pub(crate) fn first_case(input: &[u8], at: usize, have: usize) -> Case
    requires { (at ≤ have) × (have ≤ length input.now) }
    ensures { result.have ≡ have }
{
    within(&input[..have], at)
}
