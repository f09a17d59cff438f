// Input read in pieces.
ghost use Rattle.std.specs.Prelude.{◌≡◌, ◌≤◌, ◌-◌, length, take, drop};
ghost use Rattle.std.proofs.lemmas.List.Edits.{sets};

use crate::STDIN_FILENO;

// Moves the bytes from `at` on to the front; how many they are.
pub fn shift(input: &mut [u8], at: usize) -> usize
    requires { at ≤ length input.old }
    ensures { (result ≡ length input.old - at) × (input.new ≡ sets input.old 0 (drop at input.old)) }
{
    input.copy_within(at.., 0);
    input.len() - at
}

// Reads on after the `have` bytes at hand, until the buffer is full or the input ends; how many are at hand then.
pub fn fill(input: &mut [u8], have: usize) -> usize
    requires { have ≤ length input.old }
    ensures { (have ≤ result) × (result ≤ length input.old) × (take have input.new ≡ take have input.old) }
{
    have + io::read_full(STDIN_FILENO, &mut input[have..])
}

// Moves the bytes from `at` on to the front, of the `have` at hand, and reads on after them; how many are at hand then.
pub fn refill(input: &mut [u8], at: usize, have: usize) -> usize
    requires { (at ≤ have) × (have ≤ length input.old) }
    ensures { (have - at ≤ result) × (result ≤ length input.old) × (take (have - at) input.new ≡ take (have - at) (drop at input.old)) }
{
    shift(input, at);
    fill(input, have - at)
}
