// Lines laid into a buffer that has room for them.
// Room is of a buffer that is written to, so no type of a shared slice can say it.
ghost use Rattle.std.specs.Prelude.{List, ◌++◌, ℕ, ◌+◌, ◌*◌, ◌≤◌, length};
ghost use Rattle.std.proofs.Math.Option.{Option as Maybe};
ghost use Rattle.winners.specs.Winners.{Place};
ghost use Rattle.winners.specs.Best.{Stands};
ghost use Rattle.wording.specs.Lines.{decimal, spaced, listed, DIRECT, RULE, SOURCE, refused_line, state_line, changed_line, source_text, winner_line, Said, Room};

use winners::{Best, Source};

fn text(out: &mut [u8], at: usize, words: &[u8]) -> usize
    requires { at + length words.now ≤ length out.old }
    ensures { Said words.now out.old at result out.new }
{
    lines::text(out, at, words)
}

fn number(out: &mut [u8], at: usize, n: u64) -> usize
    requires { at + 20 ≤ length out.old }
    ensures { Said (decimal n) out.old at result out.new × (result ≤ at + 20) }
{
    lines::number(out, at, n)
}

fn small(out: &mut [u8], at: usize, n: u32) -> usize
    requires { at + 20 ≤ length out.old }
    ensures { Said (decimal n) out.old at result out.new × (result ≤ at + 20) }
{
    number(out, at, u64::from(n))
}

fn spaced(out: &mut [u8], at: usize, list: &[u32]) -> usize
    requires { at + 21 * length list.now ≤ length out.old }
    ensures { Said (spaced list.now) out.old at result out.new × (result ≤ at + 21 * length list.now) }
{
    let mut used = at;
    for n in list {
        let next = text(out, used, b" ");
        used = small(out, next, *n);
    }
    used
}

// How many, and each.
fn listed(out: &mut [u8], at: usize, list: &[u32]) -> usize
    requires { (length list.now ≤ 4096) × (at + 86038 ≤ length out.old) }
    ensures { Said (listed list.now) out.old at result out.new }
{
    let a = number(out, at, list.len() as u64);
    let b = text(out, a, b":");
    let c = spaced(out, b, list);
    text(out, c, b"\n")
}

// By its number: any may be said.
pub fn refused(out: &mut [u8], at: usize, verdict: u32, offset: u64) -> usize
    requires { Room at out.old }
    ensures { Said (refused_line verdict offset) out.old at result out.new }
{
    let a = text(out, at, b"refused ");
    let b = small(out, a, verdict);
    let c = text(out, b, b" at ");
    let d = number(out, c, offset);
    text(out, d, b"\n")
}

pub fn state(out: &mut [u8], at: usize, child: u32, list: &[u32]) -> usize
    requires { Room at out.old × (length list.now ≤ 4096) }
    ensures { Said (state_line child list.now) out.old at result out.new }
{
    let a = text(out, at, b"state ");
    let b = small(out, a, child);
    let c = text(out, b, b" matched ");
    listed(out, c, list)
}

pub fn changed(out: &mut [u8], at: usize, list: &[u32]) -> usize
    requires { Room at out.old × (length list.now ≤ 4096) }
    ensures { Said (changed_line list.now) out.old at result out.new }
{
    let a = text(out, at, b"changed ");
    listed(out, a, list)
}

fn direct(out: &mut [u8], at: usize, index: u32) -> usize
    requires { at + 29 ≤ length out.old }
    ensures { Said (DIRECT ++ decimal index) out.old at result out.new × (result ≤ at + 29) }
{
    let a = text(out, at, b": direct ");
    small(out, a, index)
}

fn rule(out: &mut [u8], at: usize, number: u32, index: u32) -> usize
    requires { at + 55 ≤ length out.old }
    ensures { Said (RULE ++ (decimal number ++ (SOURCE ++ decimal index))) out.old at result out.new × (result ≤ at + 55) }
{
    let a = text(out, at, b": rule ");
    let b = small(out, a, number);
    let c = text(out, b, b" source ");
    small(out, c, index)
}

fn source(out: &mut [u8], at: usize, best: Option<Best>) -> usize
    requires { at + 55 ≤ length out.old }
    ensures { ((w : List ℕ) (ranking p : ℕ) (o : Maybe Place) → Stands w ranking p o best → Said (source_text w o) out.old at result out.new) × (result ≤ at + 55) }
{
    let Some(best) = best else {
        return text(out, at, b": none");
    };
    let index = best.key.source_index;
    match best.source {
        Source::Style(_) => direct(out, at, index),
        Source::Rule(number) => rule(out, at, number, index),
    }
}

pub fn winner(out: &mut [u8], at: usize, property: u32, best: Option<Best>) -> usize
    requires { Room at out.old }
    ensures { (w : List ℕ) (ranking p : ℕ) (o : Maybe Place) → Stands w ranking p o best → Said (winner_line w property o) out.old at result out.new }
{
    let a = text(out, at, b"winner ");
    let b = small(out, a, property);
    let c = source(out, b, best);
    text(out, c, b"\n")
}
