// For callers that hold the sheet to its shape and the subject's ids in order already.
ghost use Rattle.std.specs.Prelude.{◌≡◌, true, false, ◌&&◌, ◌||◌, not, [], ◌∷◌, ◌+◌, ◌-◌, ◌/◌, ◌%◌, ◌≤◌, ◌<◌, length, get_or, ltb, eqb};
ghost use Rattle.theory.specs.Lists.{ascends, only};
ghost use Rattle.lent.specs.Pool.{ends_in};
ghost use Rattle.selector.specs.Tags.{step_matches};
ghost use Rattle.selector.specs.Rows.{row_at};
ghost use Rattle.selector.specs.Checks.{tags_ascend};
ghost use Rattle.sheet.specs.Layout.{steps_in, step_place, STEP-COMBINATOR, STEP-WORDS};
ghost use Rattle.advance.specs.Advancing.{leaves, lists, Advanced, Room};
ghost use Rattle.advance.specs.Collecting.{Free, Put, Kept, Puts, Walks, Least, Turned};

use lent::lists::{cell, start_of};
use lent::words::{wide, word};
use selector::held::matches_row;
use sheet::shape::step_place;
use sheet::{Sheet, layout};

// How many cursors and how many rules.
#[derive(Clone, Copy, Debug, PartialEq, Eq)]
pub struct Counts {
    pub cursors: usize,
    pub matched: usize,
}

// How many cursors of the parent and of the root are done, and what that made.
#[derive(Clone, Copy)]
struct Done {
    parent: usize,
    root: usize,
    counts: Counts,
}

// A cursor, and how many of the parent's and of the root's are done with it.
#[derive(Clone, Copy)]
struct Taken {
    cursor: u32,
    parent: usize,
    root: usize,
}

// Whether a descendant combinator stands before step s.
fn descends(sheet: &[u32], s: u32) -> bool
    ensures { result ≡ not (eqb (ends_in sheet.now STEP-COMBINATOR STEP-WORDS s) 0) }
{
    let combinators = layout::STEP_COMBINATORS;
    cell(sheet, combinators, s) != 0
}

// Whether step s matches the subject.
fn passes(sheet: Sheet<'_>, s: u32, subject: &[u32]) -> bool
    requires sheet_value { s < steps_in sheet.words.now }
    requires subject_value { tags_ascend (row_at 16 subject.now 0) ≡ true }
    ensures { result ≡ step_matches (row_at 8 sheet.entry.words.now (step_place s)) (row_at 16 subject.now 0) }
{
    matches_row(sheet.words, step_place(s), subject, 0)
}

// Whether a is the last of the first `used` numbers.
fn ends_with(out: &[u32], used: usize, a: u32) -> bool
    requires { used ≤ length out.now }
    ensures { result ≡ (ltb 0 used && eqb (get_or out.now (used - 1) 0) a) }
{
    if used == 0 {
        return false;
    }
    out[used - 1] == a
}

// a after the first `used` numbers, unless it is the last of them; how many they are then.
fn put_new(out: &mut [u32], used: usize, a: u32) -> usize
    requires { Free 1 a out.old used }
    ensures { Put out.old used (a ∷ []) out.new result }
{
    if ends_with(out, used, a) {
        return used;
    }
    out[used] = a;
    used + 1
}

// The cursor c at step s stays if that stands after a descendant combinator; nothing stands before a rule's first step.
fn put_kept(sheet: &[u32], c: u32, s: u32, next: &mut [u32], used: usize) -> usize
    requires { Free 2 c next.old used }
    ensures { Kept next.old used c (only (ltb 0 (c % 8) && not (eqb (ends_in sheet.now STEP-COMBINATOR STEP-WORDS s) 0)) c) next.new result }
{
    if c % 8 == 0 {
        return used;
    }
    if descends(sheet, s) {
        return put_new(next, used, c);
    }
    used
}

// A match moves the cursor on or, at the last step, lists the rule.
fn put_moved(
    sheet: Sheet<'_>,
    c: u32,
    s: u32,
    last: bool,
    subject: &[u32],
    next: &mut [u32],
    listed: &mut [u32],
    counts: Counts,
) -> Counts
    requires sheet_value { (s < steps_in sheet.words.now) × (c < 2048) }
    requires subject_value { tags_ascend (row_at 16 subject.now 0) ≡ true }
    requires free { Free 1 (c + 1) next.old counts.cursors }
    requires free_2 { Free 1 (c / 8) listed.old counts.matched }
    ensures { Puts next.old counts.cursors (only (step_matches (row_at 8 sheet.entry.words.now (step_place s)) (row_at 16 subject.now 0) && not last) (c + 1)) next.new result.cursors listed.old counts.matched (only (step_matches (row_at 8 sheet.entry.words.now (step_place s)) (row_at 16 subject.now 0) && last) (c / 8)) listed.new result.matched }
{
    let cursors = counts.cursors;
    let matched = counts.matched;
    if passes(sheet, s, subject) {
        if last {
            let more = put_new(listed, matched, c / 8);
            return Counts {
                cursors,
                matched: more,
            };
        }
        let more = put_new(next, cursors, c + 1);
        return Counts {
            cursors: more,
            matched,
        };
    }
    counts
}

// What the cursor c leaves and lists; nothing if it is at no step.
fn put_one(
    sheet: Sheet<'_>,
    c: u32,
    subject: &[u32],
    next: &mut [u32],
    listed: &mut [u32],
    counts: Counts,
) -> Counts
    requires subject_value { tags_ascend (row_at 16 subject.now 0) ≡ true }
    requires free { Free 2 c next.old counts.cursors }
    requires free_2 { Free 1 (c / 8) listed.old counts.matched }
    ensures { Puts next.old counts.cursors (leaves sheet.entry.words.now (row_at 16 subject.now 0) c) next.new result.cursors listed.old counts.matched (lists sheet.entry.words.now (row_at 16 subject.now 0) c) listed.new result.matched }
{
    let steps = layout::RULE_STEP_ENDS;
    let r = c / 8;
    if word(sheet.words, layout::RULES) <= r {
        return counts;
    }
    let s = start_of(sheet.words, steps, r) + c % 8;
    let end = cell(sheet.words, steps, r);
    if end <= s {
        return counts;
    }
    let matched = counts.matched;
    let cursors = put_kept(sheet.words, c, s, next, counts.cursors);
    put_moved(
        sheet,
        c,
        s,
        s + 1 == end,
        subject,
        next,
        listed,
        Counts { cursors, matched },
    )
}

// The lowest cursor that is left. One that stands in both lists is done in both, so that it is put once.
fn lowest(parent: &[u32], root: &[u32], i: usize, j: usize) -> Taken
    requires parent_value { (ascends parent.now ≡ true) × (ascends root.now ≡ true) }
    requires root_value { (ltb i (length parent.now) || ltb j (length root.now)) ≡ true }
    ensures { Least parent.now root.now i j result.cursor result.parent result.root }
{
    if root.len() <= j {
        return Taken {
            cursor: parent[i],
            parent: i + 1,
            root: j,
        };
    }
    if parent.len() <= i {
        return Taken {
            cursor: root[j],
            parent: i,
            root: j + 1,
        };
    }
    let a = parent[i];
    let b = root[j];
    if a < b {
        return Taken {
            cursor: a,
            parent: i + 1,
            root: j,
        };
    }
    if b < a {
        return Taken {
            cursor: b,
            parent: i,
            root: j + 1,
        };
    }
    Taken {
        cursor: a,
        parent: i + 1,
        root: j + 1,
    }
}

// What the lowest cursor that is left leaves and lists.
fn turn(
    sheet: Sheet<'_>,
    parent: &[u32],
    root: &[u32],
    subject: &[u32],
    next: &mut [u32],
    listed: &mut [u32],
    done: Done,
) -> Done
    requires subject_value { tags_ascend (row_at 16 subject.now 0) ≡ true }
    requires walks { Walks sheet.words.now (row_at 16 subject.now 0) parent.now root.now next.old listed.old done.parent done.root done.counts.cursors done.counts.matched }
    requires root_value { (ltb done.parent (length parent.now) || ltb done.root (length root.now)) ≡ true }
    ensures { Turned sheet.entry.words.now (row_at 16 subject.now 0) parent.now root.now next.old listed.old done.parent done.root done.counts.cursors done.counts.matched next.new listed.new result.parent result.root result.counts.cursors result.counts.matched }
{
    let taken = lowest(parent, root, done.parent, done.root);
    let counts = put_one(sheet, taken.cursor, subject, next, listed, done.counts);
    Done {
        parent: taken.parent,
        root: taken.root,
        counts,
    }
}

// Whether a cursor is left in one of the lists.
fn goes_on(parent: &[u32], root: &[u32], done: Done) -> bool
    ensures { result ≡ (ltb done.parent (length parent.now) || ltb done.root (length root.now)) }
{
    if done.parent < parent.len() {
        return true;
    }
    done.root < root.len()
}

// The cursors and the rules of the subject's state under a parent: into `next` and `listed`.
pub fn advance(
    sheet: Sheet<'_>,
    parent: &[u32],
    root: &[u32],
    subject: &[u32],
    next: &mut [u32],
    listed: &mut [u32],
) -> Counts
    requires subject_value { tags_ascend (row_at 16 subject.now 0) ≡ true }
    requires parent_value { (ascends parent.now ≡ true) × (ascends root.now ≡ true) }
    requires room { Room sheet.words.now parent.now root.now (row_at 16 subject.now 0) next.old listed.old }
    ensures { Advanced sheet.entry.words.now parent.now root.now (row_at 16 subject.now 0) next.old listed.old result.cursors result.matched next.new listed.new }
{
    let mut done = Done {
        parent: 0,
        root: 0,
        counts: Counts {
            cursors: 0,
            matched: 0,
        },
    };
    // A turn takes from one list or from both, so that neither's index counts the turns.
    while goes_on(parent, root, done) {
        done = turn(sheet, parent, root, subject, next, listed, done);
    }
    done.counts
}
