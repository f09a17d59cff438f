// Words as half words, for the programs' buffers of property ids.
ghost use Rattle.std.specs.Prelude.{◌≡◌, ◌%◌, ◌<◌, ◌≤◌, ℕ, min, length, get_or};

// The low half of a word.
pub fn half(x: u32) -> u16
    ensures { result ≡ x % 65536 }
{
    (x % 65536) as u16
}

// The low halves of a list's words, as far as there is room; how many.
pub fn halves(words: &[u32], into: &mut [u16]) -> usize
    ensures count { result ≡ min (length words.now) (length into.old) }
    ensures halved { (k : ℕ) → k < result → get_or into.new k 0 ≡ get_or words.now k 0 % 65536 }
    ensures kept { (k : ℕ) → result ≤ k → get_or into.new k 0 ≡ get_or into.old k 0 }
    ensures as_long { length into.new ≡ length into.old }
{
    let n = words.len().min(into.len());
    for i in 0..n {
        into[i] = half(words[i]);
    }
    n
}
