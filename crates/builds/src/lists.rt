// The lists of an item's words. Their lengths stand side by side, and the lists follow in the same order.
use lent::held::part;
use lent::words::{wide, word};

// Where the first of the lengths stands, and where the first of the lists begins.
#[derive(Clone, Copy)]
pub(crate) struct Lists {
    pub(crate) lengths: usize,
    pub(crate) begin: usize,
}

// Where a list that begins at `from` ends, if word i is its length: where the words end, at the most.
pub(crate) fn end(words: &[u32], from: usize, i: usize) -> usize {
    let n = wide(word(words, i));
    if words.len() <= from {
        return words.len();
    }
    if words.len() - from < n {
        return words.len();
    }
    from + n
}

// Where the list whose length is word i begins.
fn start(words: &[u32], lists: Lists, i: usize) -> usize {
    let mut at = lists.begin;
    for k in lists.lengths..i {
        at = end(words, at, k);
    }
    at
}

// The list whose length is word i.
pub(crate) fn list<'a>(words: &'a [u32], lists: Lists, i: usize) -> &'a [u32] {
    let from = start(words, lists, i);
    part(words, from, end(words, from, i))
}
