// The transition that entering writes. Nothing is required of the table: a caller that did not test its shape gets what its words say.
// The table's lists come apart: calls write to some and read others, and a struct that lends each again is no plainer.
ghost use Rattle.std.specs.Prelude.{◌≡◌, true, false, List, ℕ, ◌-◌, ◌<◌};
ghost use Rattle.table.specs.Tables.{table, transitions_in, first_link};
ghost use Rattle.table.specs.Entering.{leads, transition_fits, last_from, with_row, hooked, kept};

use cached::held::leads;
use lent::lists::{address, cell};
use lent::words::{copy_into, put, wide, word};
use table::layout;

fn transition_fits(n: u32, room: usize) -> bool
    ensures { result ≡ transition_fits n room }
{
    if n == 4294967295 {
        return false;
    }
    wide(layout::TRANSITION_WORDS) * (wide(n) + 1) <= room
}

// The last link of the chain.
fn last_from(transitions: &[u32], count: u32, first: u32) -> u32
    requires { leads count first ≡ true }
    ensures { (result ≡ last_from transitions.now count first (count - 1)) × (leads count result ≡ true) }
{
    let links = layout::NEXT_LINKS;
    let mut link = first;
    for _ in 1..count {
        let next = cell(transitions, links, link - 1);
        if !leads(count, next) {
            return link;
        }
        link = next;
    }
    link
}

// The row of transition n, not yet linked to.
fn put_row(transitions: &mut [u32], n: u32, parent: u32, child: u32, row: &[u32])
    ensures { transitions.new ≡ with_row transitions.old n parent child row.now }
{
    let parents = layout::PARENTS;
    let subjects = layout::SUBJECTS;
    copy_into(transitions, address(parents, n), &[parent, child, 0]);
    copy_into(transitions, address(subjects, n), row);
}

// The parent's first transition.
fn hook_first(
    head: &mut [u32],
    states: &mut [u32],
    transitions: &mut [u32],
    parent: u32,
    child: u32,
    row: &[u32],
)
    requires { (transitions_in head.old < 4294967295) × (leads (transitions_in head.old) (first_link states.old parent) ≡ false) }
    ensures { (c m : List ℕ) → table head.new states.new c m transitions.new ≡ hooked (table head.old states.old c m transitions.old) parent child row.now }
{
    let firsts = layout::FIRST_LINKS;
    let n = word(head, layout::TRANSITIONS);
    put_row(transitions, n, parent, child, row);
    put(states, address(firsts, parent), n + 1);
    put(head, layout::TRANSITIONS, n + 1);
}

// A further transition, after the last of the parent's chain.
fn hook_last(
    head: &mut [u32],
    transitions: &mut [u32],
    parent: u32,
    child: u32,
    row: &[u32],
    first: u32,
)
    requires { (transitions_in head.old < 4294967295) × (leads (transitions_in head.old) first ≡ true) }
    ensures { (s c m : List ℕ) → first ≡ first_link s parent → table head.new s c m transitions.new ≡ hooked (table head.old s c m transitions.old) parent child row.now }
{
    let links = layout::NEXT_LINKS;
    let n = word(head, layout::TRANSITIONS);
    let last = last_from(transitions, n, first);
    put_row(transitions, n, parent, child, row);
    put(transitions, address(links, last - 1), n + 1);
    put(head, layout::TRANSITIONS, n + 1);
}

// The transition is kept if there is room.
pub fn keep(
    head: &mut [u32],
    states: &mut [u32],
    transitions: &mut [u32],
    parent: u32,
    child: u32,
    row: &[u32],
)
    ensures { (c m : List ℕ) → table head.new states.new c m transitions.new ≡ kept (table head.old states.old c m transitions.old) parent child row.now }
{
    let firsts = layout::FIRST_LINKS;
    let n = word(head, layout::TRANSITIONS);
    if !transition_fits(n, transitions.len()) {
        return;
    }
    let first = cell(states, firsts, parent);
    if leads(n, first) {
        hook_last(head, transitions, parent, child, row, first);
    } else {
        hook_first(head, states, transitions, parent, child, row);
    }
}
