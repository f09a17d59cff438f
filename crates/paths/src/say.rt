// What selector answers, in the judge's words.
use lent::Refusal;
use lines::text;
use screen::labelled;
use selector::{SelectorMismatch, Specificity};

fn refused(out: &mut [u8], at: usize, refusal: Refusal) -> usize {
    let used = labelled(out, at, b"refused ", u64::from(refusal.number()));
    text(out, used, b"\n")
}

pub(crate) fn matching(out: &mut [u8], at: usize, fits: Result<bool, Refusal>) -> usize {
    match fits {
        Ok(true) => text(out, at, b"match yes\n"),
        Ok(false) => text(out, at, b"match no\n"),
        Err(refusal) => refused(out, at, refusal),
    }
}

// The name of what is found, and its two numbers.
fn found(out: &mut [u8], at: usize, name: &[u8], first: usize, second: usize) -> usize {
    let start = text(out, at, b"diagnosis ");
    let used = labelled(out, start, name, first as u64);
    let then = labelled(out, used, b" ", second as u64);
    text(out, then, b"\n")
}

fn mismatch(out: &mut [u8], at: usize, mismatch: SelectorMismatch) -> usize {
    match mismatch {
        SelectorMismatch::EmptySelectorWithNonEmptyPath => {
            text(out, at, b"diagnosis EmptySelectorWithNonEmptyPath\n")
        }
        SelectorMismatch::MissingSubject {
            step_index,
            path_index,
        } => found(out, at, b"MissingSubject ", step_index, path_index),
        SelectorMismatch::StepMismatch {
            step_index,
            path_index,
        } => found(out, at, b"StepMismatch ", step_index, path_index),
        SelectorMismatch::TrailingSubjects {
            step_count,
            path_index,
        } => found(out, at, b"TrailingSubjects ", step_count, path_index),
        SelectorMismatch::MissingDescendant {
            step_index,
            after_path_index,
        } => found(out, at, b"MissingDescendant ", step_index, after_path_index),
    }
}

pub(crate) fn diagnosis(
    out: &mut [u8],
    at: usize,
    answer: Result<Result<(), SelectorMismatch>, Refusal>,
) -> usize {
    match answer {
        Ok(Ok(())) => text(out, at, b"diagnosis fits\n"),
        Ok(Err(why)) => mismatch(out, at, why),
        Err(refusal) => refused(out, at, refusal),
    }
}

// A name, and the numbers after it.
fn numbers(out: &mut [u8], at: usize, name: &[u8], list: &[u32]) -> usize {
    let mut used = text(out, at, name);
    for n in list {
        used = labelled(out, used, b" ", u64::from(*n));
    }
    text(out, used, b"\n")
}

// `weight0` and the four counts of ranking 0, or the refusal.
pub(crate) fn weight(out: &mut [u8], at: usize, weighing: Result<Specificity, Refusal>) -> usize {
    match weighing {
        Ok(s) => numbers(out, at, b"weight0", &[s.0, s.1, s.2, s.3]),
        Err(refusal) => refused(out, at, refusal),
    }
}

// `weight1` and the two counts of ranking 1; nothing more where it is refused, as ranking 0 was then.
pub(crate) fn weight3(out: &mut [u8], at: usize, weighing: Result<Specificity, Refusal>) -> usize {
    match weighing {
        Ok(s) => numbers(out, at, b"weight1", &[s.0, s.1]),
        Err(_) => at,
    }
}
