// Answers cases about selectors and paths from standard input, in the words of the judge (oracle/), so that the two can be compared.
// A case is three sections of little-endian words, and each section a count, a number, and as many rows as the number says:
// the steps' rows, the combinators' words, the subjects' rows. A count is what is given, a number is what is lent.
#![tactic(auto)]

ghost use Rattle.std.specs.Prelude.{◌≤◌, length};

use screen::held::refill;
use screen::{ends, send};

mod answer;
mod say;
mod section;

use section::Case;

// The case that begins at `at`. Where it is not whole it is moved to the front, and more is read; no bytes if it is not whole then.
fn find(input: &mut [u8; 131072], at: usize, have: usize) -> Case
    requires { (at ≤ have) × (have ≤ 131072) }
    ensures { result.have ≤ 131072 }
{
    let case = section::first_case(input, at, have);
    if case.from < case.path {
        return case;
    }
    let n = refill(input, at, have);
    section::first_case(input, 0, n)
}

// Answers a case; how much of the buffer is used then.
fn answer_bytes(input: &[u8], case: Case, out: &mut [u8], at: usize) -> usize
    requires { case.have ≤ length input.now }
{
    let used = answer::answer(
        &input[case.from..case.steps],
        &input[case.steps..case.codes],
        &input[case.codes..case.path],
        out,
        at,
    );
    send(out, used, 16384)
}

fn answer_case(input: &[u8; 131072], case: Case, out: &mut [u8; 65536], at: usize) -> usize
    requires { case.have ≤ 131072 }
{
    answer_bytes(input, case, out, at)
}

fn last_line(input: &[u8], have: usize, out: &mut [u8])
    requires { have ≤ length input.now }
{
    let rest = &input[..have];
    ends(rest, section::is_too_long(rest), have < input.len(), out);
}

// Writes out what is left, and the last line.
fn last(input: &[u8; 131072], have: usize, out: &mut [u8; 65536], used: usize)
    requires { have ≤ 131072 }
{
    send(out, used, 0);
    last_line(input, have, out);
}

// A proved loop has to end, and nothing says that the input does: the turns are counted, up to a number that no run reaches.
fn main() {
    let mut input = [0u8; 131072];
    let mut out = [0u8; 65536];
    let mut used = 0;
    let mut case = section::nothing(0, 0);
    for _ in 0..u64::MAX {
        case = find(&mut input, case.path, case.have);
        if case.path <= case.from {
            last(&input, case.have, &mut out, used);
            return;
        }
        used = answer_case(&input, case, &mut out, used);
    }
}
