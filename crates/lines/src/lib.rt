// Text laid into a lent buffer, and little-endian words read out of bytes.
#![tactic(auto)]

ghost use Rattle.std.specs.Prelude.{◌≡◌, ◌<◌, get_or};
ghost use Rattle.lines.specs.Text.{Laid, LaidNumber, word_at, Read};

use std::cmp::min;

// `words` from `at` on, or nothing where it has no room; where the next text goes.
// By a loop: most texts that are laid are a byte or two, for which `memmove`, called by `copy_from_slice`, takes longer.
pub fn text(out: &mut [u8], at: usize, words: &[u8]) -> usize
    ensures { Laid words.now out.old at result out.new }
{
    if out.len() < at {
        return at;
    }
    if out.len() - at < words.len() {
        return at;
    }
    for i in 0..words.len() {
        out[at + i] = words[i];
    }
    at + words.len()
}

// A number in decimal, in as few digits as hold it.
pub fn number(out: &mut [u8], at: usize, n: u64) -> usize
    ensures { LaidNumber n out.old at result out.new }
{
    let mut digits = [0u8; 20];
    let k = io::decimal(n, &mut digits);
    text(out, at, &digits[..k])
}

// The byte at `at`, 0 past the end.
fn byte(bytes: &[u8], at: usize) -> u32
    ensures { (result ≡ get_or bytes.now at 0) × (result < 256) }
{
    if at < bytes.len() {
        u32::from(bytes[at])
    } else {
        0
    }
}

// The word whose least byte is at `at`; a byte past the end is 0.
pub fn word(bytes: &[u8], at: usize) -> u32
    ensures { result ≡ word_at bytes.now at }
{
    if bytes.len() <= at {
        return 0;
    }
    let low = byte(bytes, at) + byte(bytes, at + 1) * 256;
    let high = byte(bytes, at + 2) + byte(bytes, at + 3) * 256;
    low + high * 65536
}

// The words of `bytes`, as many as are whole there and have a place in `into`; how many.
pub fn words(bytes: &[u8], into: &mut [u32]) -> usize
    ensures { Read bytes.now into.old result into.new }
{
    let n = min(bytes.len() / 4, into.len());
    for i in 0..n {
        into[i] = word(bytes, i * 4);
    }
    n
}
