// Nothing is required of the table: along whatever chain its words say.
ghost use Rattle.std.specs.Prelude.{◌≡◌, ◌&&◌, ◌<◌};
ghost use Rattle.selector.specs.Rows.{row_at, tag_of};
ghost use Rattle.table.specs.Tables.{linked};
ghost use Rattle.table.specs.Shape.{same};
ghost use Rattle.table.specs.Entering.{same_tag, same_subject, leads, is_hit, cached_from, cached};

use idset::compare;
use lent::lists::cell;
use lent::words::word;
use selector::held::ids;
use table::layout;
use table::shape::subject_place;

// ---- equal subjects

// Two tags, each with the flag that says whether it is set.
fn same_tag(flag: u32, tag: u32, other_flag: u32, other_tag: u32) -> bool
    ensures { result ≡ same_tag (tag_of flag tag) (tag_of other_flag other_tag) }
{
    if flag == 0 {
        return other_flag == 0;
    }
    if other_flag == 0 {
        return false;
    }
    tag == other_tag
}

// The type and the part of the row that begins at word `at`, and those of the other row.
fn same_tags(words: &[u32], at: usize, row: &[u32]) -> bool
    requires { at < 1000000000000 }
    ensures { result ≡ (same_tag (row_at 16 words.now at).type (row_at 16 row.now 0).type && same_tag (row_at 16 words.now at).part (row_at 16 row.now 0).part) }
{
    if !same_tag(
        word(words, at),
        word(words, at + 1),
        word(row, 0),
        word(row, 1),
    ) {
        return false;
    }
    same_tag(
        word(words, at + 2),
        word(words, at + 3),
        word(row, 2),
        word(row, 3),
    )
}

// Lists of different lengths are not looked into.
pub fn same_lists(list: &[u32], other: &[u32]) -> bool
    ensures { result ≡ same list.now other.now }
{
    if list.len() != other.len() {
        return false;
    }
    compare(list, other) == 0
}

// Whether the subject whose row begins at word `at` is the one of the other row.
fn same_subject(words: &[u32], at: usize, row: &[u32]) -> bool
    requires { at < 999999999000 }
    ensures { result ≡ same_subject (row_at 16 words.now at) (row_at 16 row.now 0) }
{
    if !same_tags(words, at, row) {
        return false;
    }
    if !same_lists(ids(words, at + 6, at + 4), ids(row, 6, 4)) {
        return false;
    }
    same_lists(ids(words, at + 22, at + 5), ids(row, 22, 5))
}

// ---- along a chain

// Whether the link leads to one of `count` transitions.
pub fn leads(count: u32, link: u32) -> bool
    ensures { result ≡ leads count link }
{
    if link == 0 {
        return false;
    }
    link <= count
}

// Whether transition k is of this parent and subject.
fn is_hit(transitions: &[u32], parent: u32, row: &[u32], k: u32) -> bool
    ensures { result ≡ is_hit transitions.now parent (row_at 16 row.now 0) k }
{
    let parents = layout::PARENTS;
    if cell(transitions, parents, k) != parent {
        return false;
    }
    let at = subject_place(k);
    same_subject(transitions, at, row)
}

// The first transition of this parent and subject along the chain.
fn cached_from(transitions: &[u32], count: u32, parent: u32, row: &[u32], first: u32) -> Option<u32>
    ensures { result ≡ linked (cached_from transitions.now count parent (row_at 16 row.now 0) first count) }
{
    let links = layout::NEXT_LINKS;
    let mut link = first;
    for _ in 0..count {
        if !leads(count, link) {
            return None;
        }
        let k = link - 1;
        if is_hit(transitions, parent, row, k) {
            return Some(k);
        }
        link = cell(transitions, links, k);
    }
    None
}

// The number of the cached transition of this parent and subject.
pub fn cached(
    head: &[u32],
    states: &[u32],
    transitions: &[u32],
    parent: u32,
    row: &[u32],
) -> Option<u32>
    ensures { result ≡ linked (cached head.now states.now transitions.now parent (row_at 16 row.now 0)) }
{
    let firsts = layout::FIRST_LINKS;
    cached_from(
        transitions,
        word(head, layout::TRANSITIONS),
        parent,
        row,
        cell(states, firsts, parent),
    )
}
