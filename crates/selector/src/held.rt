// Subjects and steps as lent rows of words. A subject row has 38: type flag, type, part flag, part, class count, pseudo count, 16 classes,
// 16 pseudos; a step row 22, with 8 and 8. A flag that isn't 0 means set.
ghost use Rattle.std.specs.Prelude.{◌≡◌, true, ◌+◌, ◌≤◌, ◌<◌, get_or};
ghost use Rattle.theory.specs.Lists.{ascends, contained};
ghost use Rattle.selector.specs.Tags.{as_sets, tag_ok, step_matches};
ghost use Rattle.selector.specs.Rows.{tag_of, words_from, row_at};
ghost use Rattle.selector.specs.Checks.{row_fits, tags_ascend};
ghost use Rattle.selector.specs.Weighing.{is_set};

use idset::held::contains;
use idset::is_ascending;
use lent::words::{wide, word};

pub const STEP_WORDS: usize = 22;

pub const SUBJECT_WORDS: usize = 38;

// The words from `at` on, as many as the word at `count` says.
pub fn ids<'a>(words: &'a [u32], at: usize, count: usize) -> &'a [u32]
    requires { at < 1000000000000 }
    ensures { result.now ≡ words_from words.now at (get_or words.now count 0) }
{
    let n = wide(word(words, count));
    lent::held::part(words, at, at + n)
}

// 1 where the tag whose flag is the word at `at` is set.
pub fn flag(words: &[u32], at: usize) -> u32
    ensures { (result ≡ is_set (tag_of (get_or words.now at 0) (get_or words.now (at + 1) 0))) × (result ≤ 1) }
{
    if word(words, at) == 0 { 0 } else { 1 }
}

// Whether the counts of the row that begins at word `at` are within `size`.
pub fn row_fits(words: &[u32], at: usize, size: u32) -> bool
    requires { at < 4294967296 }
    ensures { result ≡ row_fits size words.now at }
{
    if size < word(words, at + 4) {
        return false;
    }
    word(words, at + 5) <= size
}

// Whether the ids of the subject row that begins at word `at` ascend.
pub fn row_ascends(path: &[u32], at: usize) -> bool
    requires { at < 4294967000 }
    ensures { result ≡ tags_ascend (row_at 16 path.now at) }
{
    if !is_ascending(ids(path, at + 6, at + 4)) {
        return false;
    }
    is_ascending(ids(path, at + 22, at + 5))
}

// Whether the tag at word s of a step, where set, is the one at word x of a subject.
fn tag_matches(steps: &[u32], s: usize, path: &[u32], x: usize) -> bool
    requires { (s < 4294967296) × (x < 4294967296) }
    ensures { result ≡ tag_ok (tag_of (get_or steps.now s 0) (get_or steps.now (s + 1) 0)) (tag_of (get_or path.now x 0) (get_or path.now (x + 1) 0)) }
{
    if word(steps, s) == 0 {
        return true;
    }
    if word(path, x) == 0 {
        return false;
    }
    word(steps, s + 1) == word(path, x + 1)
}

// Whether each id, in any order and repeated, is in the ascending set.
fn all_in(given: &[u32], set: &[u32]) -> bool
    requires { ascends set.now ≡ true }
    ensures { result ≡ contained given.now set.now }
{
    given.iter().all(|id| contains(set, *id))
}

// Whether the step whose row begins at word s matches the subject whose row begins at word x.
pub fn matches_row(steps: &[u32], s: usize, path: &[u32], x: usize) -> bool
    requires s_bound { (s < 4294967000) × (x < 4294967000) }
    requires x_value { tags_ascend (row_at 16 path.now x) ≡ true }
    ensures { result ≡ step_matches (as_sets (row_at 8 steps.now s)) (row_at 16 path.now x) }
{
    if !tag_matches(steps, s, path, x) {
        return false;
    }
    if !tag_matches(steps, s + 2, path, x + 2) {
        return false;
    }
    if !all_in(ids(steps, s + 6, s + 4), ids(path, x + 6, x + 4)) {
        return false;
    }
    all_in(ids(steps, s + 14, s + 5), ids(path, x + 22, x + 5))
}
