// Lines: a tag, and numbers. What is laid into the buffer is written out once it is more than 16,384 bytes, so that there is room for what comes next.
ghost use Rattle.std.specs.Prelude.{[], ◌∷◌};
ghost use Rattle.lent.specs.Refusals.{number_of};
ghost use Rattle.items.specs.Said.{SaidEnd, SaidNumber, SaidNumbers, SaidLine};

use lent::Refusal;
use lines::text;
use screen::labelled;

// How many bytes may be kept.
const KEPT: usize = 16384;

pub fn end(out: &mut [u8], at: usize) -> usize
    ensures { SaidEnd out.old at result out.new }
{
    let used = text(out, at, b"\n");
    screen::send(out, used, KEPT)
}

pub fn number(out: &mut [u8], at: usize, n: u32) -> usize
    ensures { SaidNumber n out.old at result out.new }
{
    let used = labelled(out, at, b" ", u64::from(n));
    screen::send(out, used, KEPT)
}

pub fn numbers(out: &mut [u8], at: usize, list: &[u32]) -> usize
    ensures { SaidNumbers list.now out.old at result out.new }
{
    let mut used = at;
    for n in list {
        used = number(out, used, *n);
    }
    used
}

pub fn line(out: &mut [u8], at: usize, tag: &[u8], list: &[u32]) -> usize
    ensures { SaidLine tag.now list.now out.old at result out.new }
{
    let start = text(out, at, tag);
    let used = numbers(out, start, list);
    end(out, used)
}

// A line with one number.
pub fn one(out: &mut [u8], at: usize, tag: &[u8], number: u32) -> usize
    ensures { SaidLine tag.now (number ∷ []) out.old at result out.new }
{
    let list = [number];
    line(out, at, tag, &list)
}

// A line with two numbers.
pub fn two(out: &mut [u8], at: usize, tag: &[u8], first: u32, second: u32) -> usize
    ensures { SaidLine tag.now (first ∷ second ∷ []) out.old at result out.new }
{
    let list = [first, second];
    line(out, at, tag, &list)
}

// A line with three numbers.
pub fn three(out: &mut [u8], at: usize, tag: &[u8], first: u32, second: u32, third: u32) -> usize
    ensures { SaidLine tag.now (first ∷ second ∷ third ∷ []) out.old at result out.new }
{
    let list = [first, second, third];
    line(out, at, tag, &list)
}

pub fn refused(out: &mut [u8], at: usize, tag: &[u8], refusal: Refusal) -> usize
    ensures { SaidLine tag.now (number_of refusal ∷ []) out.old at result out.new }
{
    one(out, at, tag, refusal.number())
}
