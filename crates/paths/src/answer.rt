// The lines of one case.
ghost use Rattle.std.specs.Prelude.{◌≤◌, length};

use crate::say;
use diagnosing::diagnose_path;
use lent::words::wide;
use matching::matches_path;
use weight::weigh::{level3_specificity, specificity};

// A section's count.
fn count(section: &[u8]) -> usize {
    wide(lines::word(section, 0))
}

// The words of a section's rows; how many.
fn rows(section: &[u8], into: &mut [u32]) -> usize
    ensures { result ≤ length into.old }
{
    if section.len() < 8 {
        return 0;
    }
    lines::words(&section[8..], into)
}

// A case: the rows that are lent, and the counts that are given.
#[derive(Clone, Copy)]
struct Given<'a> {
    steps: &'a [u32],
    step_count: usize,
    combinators: &'a [u32],
    combinator_count: usize,
    path: &'a [u32],
    path_count: usize,
}

// Whether the selector fits the path, and what is found of it.
fn path_lines(g: Given, out: &mut [u8], at: usize) -> usize {
    let fits = matches_path(
        g.steps,
        g.step_count,
        g.combinators,
        g.combinator_count,
        g.path,
        g.path_count,
    );
    let used = say::matching(out, at, fits);
    let found = diagnose_path(
        g.steps,
        g.step_count,
        g.combinators,
        g.combinator_count,
        g.path,
        g.path_count,
    );
    say::diagnosis(out, used, found)
}

// The selector's weight in both rankings.
fn weight_lines(g: Given, out: &mut [u8], at: usize) -> usize {
    let first = specificity(g.steps, g.step_count, g.combinators, g.combinator_count);
    let used = say::weight(out, at, first);
    let second = level3_specificity(g.steps, g.step_count, g.combinators, g.combinator_count);
    say::weight3(out, used, second)
}

// The three sections hold at most 300 rows each.
pub(crate) fn answer(steps: &[u8], codes: &[u8], path: &[u8], out: &mut [u8], at: usize) -> usize {
    let mut step_rows = [0u32; 6600];
    let mut combinators = [0u32; 300];
    let mut subjects = [0u32; 11400];
    let a = rows(steps, &mut step_rows);
    let b = rows(codes, &mut combinators);
    let c = rows(path, &mut subjects);
    let given = Given {
        steps: &step_rows[..a],
        step_count: count(steps),
        combinators: &combinators[..b],
        combinator_count: count(codes),
        path: &subjects[..c],
        path_count: count(path),
    };
    let used = path_lines(given, out, at);
    weight_lines(given, out, used)
}
