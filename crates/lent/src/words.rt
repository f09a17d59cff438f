// Words lent in a slice: a read past the end gives 0, a store past the end does nothing.
ghost use Rattle.std.specs.Prelude.{◌≡◌, get_or, set};
ghost use Rattle.std.proofs.lemmas.List.Edits.{sets};

// The same number, as an index. std has no From for it.
pub fn wide(x: u32) -> usize
    ensures { result ≡ x }
{
    x as usize
}

pub fn word(words: &[u32], at: usize) -> u32
    ensures { result ≡ get_or words.now at 0 }
{
    if at < words.len() { words[at] } else { 0 }
}

pub fn put(words: &mut [u32], at: usize, value: u32)
    ensures { words.new ≡ set words.old at value }
{
    if at < words.len() {
        words[at] = value;
    }
}

// What `list` has, stored one after the other from `at` on.
// By place: a loop over `enumerate` takes longer, and for `copy_from_slice` an archive for C needs `memmove` from outside.
pub fn copy_into<T: Copy>(words: &mut [T], at: usize, list: &[T])
    ensures { words.new ≡ sets words.old at list.now }
{
    for j in 0..list.len() {
        if words.len() <= at {
            return;
        }
        if words.len() - at <= j {
            return;
        }
        words[at + j] = list[j];
    }
}

// Half words into words. Beside `copy_into`, since each is made wider.
pub fn widen_into(words: &mut [u32], at: usize, list: &[u16])
    ensures { words.new ≡ sets words.old at list.now }
{
    for j in 0..list.len() {
        if words.len() <= at {
            return;
        }
        if words.len() - at <= j {
            return;
        }
        words[at + j] = u32::from(list[j]);
    }
}
