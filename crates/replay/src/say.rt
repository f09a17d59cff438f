// What several kinds of case say.
use lines::text;
use screen::labelled;

// Each with a space before it.
pub(crate) fn numbers(out: &mut [u8], at: usize, list: &[u32]) -> usize {
    let mut used = at;
    for x in list {
        used = labelled(out, used, b" ", u64::from(*x));
    }
    used
}

pub(crate) fn sign(out: &mut [u8], at: usize, order: i32) -> usize {
    if order < 0 {
        return text(out, at, b" -1\n");
    }
    if 0 < order {
        return text(out, at, b" 1\n");
    }
    text(out, at, b" 0\n")
}

pub(crate) fn verdict(out: &mut [u8], at: usize, yes: bool) -> usize {
    if yes {
        return text(out, at, b" yes\n");
    }
    text(out, at, b" no\n")
}
