// Lines laid into a buffer, and written out; input read in pieces.
#![tactic(auto)]

ghost use Rattle.std.specs.Prelude.{◌≡◌, cond, leb};
ghost use Rattle.screen.specs.Labelled.{Labelled};
ghost use Rattle.screen.specs.Ends.{at_front, Ends};

pub mod held;

// Where bytes come from and go to: standard input and output, by the numbers that each program is started with.
pub const STDIN_FILENO: i32 = 0;

pub const STDOUT_FILENO: i32 = 1;

// A label, and a number.
pub fn labelled(out: &mut [u8], at: usize, label: &[u8], n: u64) -> usize
    ensures { Labelled label.now n out.old at result out.new }
{
    let after = lines::text(out, at, label);
    lines::number(out, after, n)
}

// Writes the buffer out once more than `least` bytes of it are used; how many are used after.
pub fn send(out: &[u8], used: usize, least: usize) -> usize
    ensures { result ≡ cond (leb used least) used 0 }
{
    if used <= least {
        return used;
    }
    if used <= out.len() {
        io::write_all(STDOUT_FILENO, &out[..used]);
    }
    0
}

// The words alone.
fn line(out: &mut [u8], words: &[u8])
    ensures { out.new ≡ at_front words.now out.old }
{
    let used = lines::text(out, 0, words);
    send(out, used, 0);
}

// Whether nothing more is to be read after `rest`, which holds nothing whole. Input that does not end between two whole things gets a last line.
pub fn ends(rest: &[u8], is_too_long: bool, at_end: bool, out: &mut [u8]) -> bool
    ensures { Ends is_too_long at_end rest.now out.old result out.new }
{
    if is_too_long {
        line(out, b"too long\n");
        return true;
    }
    if !at_end {
        return false;
    }
    if 0 < rest.len() {
        line(out, b"cut short\n");
    }
    true
}
