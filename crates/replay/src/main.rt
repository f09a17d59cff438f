// Answers a batch of cases from standard input, a line for each, in the words of the judge (oracle/), so that the two can be compared. A number of the input says what is to be done.
// A case is two little-endian words, its kind and how many words follow, and those words.
#![tactic(auto)]

ghost use Rattle.std.specs.Prelude.{◌≤◌, length};

use screen::{STDIN_FILENO, STDOUT_FILENO};

// A longer body is answered `long`.
const LONGEST: usize = 4096;

mod one_step;
mod say;
mod sets;

// How many words a case of this kind has at least.
fn least(kind: u32, body: &[u32]) -> usize {
    match kind {
        2 | 5 => sets::second(body),
        3 => 1,
        6 => 2,
        7 => 60,
        _ => 0,
    }
}

fn answer(kind: u32, body: &[u32], out: &mut [u8], used: usize) -> usize
    requires { length body.now ≤ 4096 }
{
    if body.len() < least(kind, body) {
        return lines::text(out, used, b"short\n");
    }
    match kind {
        1 => sets::set(body, out, used),
        2 => sets::subset(body, out, used),
        3 => sets::contains(body, out, used),
        4 => sets::ascending(body, out, used),
        5 => sets::compares(body, out, used),
        6 => sets::properties(body, out, used),
        _ => one_step::step(body, out, used),
    }
}

fn is_known(kind: u32) -> bool {
    matches!(kind, 1..=7)
}

// The line of one case; `input` is its body.
fn answer_bytes(kind: u32, input: &[u8], out: &mut [u8], used: usize) -> usize {
    if !is_known(kind) {
        return lines::text(out, used, b"unknown\n");
    }
    if LONGEST < input.len() / 4 {
        return lines::text(out, used, b"long\n");
    }
    let mut body = [0u32; LONGEST];
    let n = lines::words(input, &mut body);
    answer(kind, &body[..n], out, used)
}

// The last line, where the bytes end inside a case.
fn cut(out: &mut [u8], used: usize) {
    let end = lines::text(out, used, b"cut\n");
    screen::send(out, end, 0);
}

// The cases of the input. Lines are laid into `out`, and written before they can run past its end.
fn answer_all(input: &[u8], out: &mut [u8]) {
    let mut used = 0;
    let mut rest = input;
    // Cases have different lengths: what is left of the input is cut as each says.
    while !rest.is_empty() {
        if rest.len() < 8 {
            cut(out, used);
            return;
        }
        let (head, after) = rest.split_at(8);
        let size = lent::words::wide(lines::word(head, 4));
        if after.len() / 4 < size {
            cut(out, used);
            return;
        }
        let (body, next) = after.split_at(size * 4);
        used = answer_bytes(lines::word(head, 0), body, out, used);
        used = screen::send(out, used, 16384);
        rest = next;
    }
    screen::send(out, used, 0);
}

// A batch of at most 512 KiB; a larger one gets one line that says so.
fn batch(input: &mut [u8; 524289], out: &mut [u8; 65536]) {
    let n = io::read_full(STDIN_FILENO, input);
    if 524288 < n {
        io::write_all(STDOUT_FILENO, b"over 512 KiB\n");
        return;
    }
    answer_all(&input[..n], out);
}

fn main() {
    let mut input = [0u8; 524289];
    let mut out = [0u8; 65536];
    batch(&mut input, &mut out);
}
