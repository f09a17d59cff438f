// Offsets, whether a record is at hand, and whether the input is over.
ghost use Rattle.std.specs.Prelude.{◌≡◌, ◌&&◌, ◌+◌, ◌<◌, eqb, ltb};
ghost use Rattle.records.specs.Records.{known, kind_of, is_whole};
ghost use Rattle.house.specs.Memory.{found_of};

use crate::Found;
use records::held::{is_known, is_whole, kind_of};

// What stands at the front of bytes; of none, the beginning of a record.
pub fn front(bytes: &[u8]) -> Found
    ensures { result ≡ found_of (known (kind_of bytes.now)) (is_whole bytes.now) }
{
    if !is_known(kind_of(bytes)) {
        return Found::Unknown;
    }
    if !is_whole(bytes) {
        return Found::Short;
    }
    Found::Whole
}

// An offset, n bytes on; inputs are below 2^64 bytes, and past that it stays.
pub fn further(offset: u64, n: usize) -> u64
    ensures { offset + n < 18446744073709551616 → result ≡ offset + n }
{
    let more = n as u64;
    if u64::MAX - more < offset {
        return u64::MAX;
    }
    offset + more
}

// Nothing taken and nothing more to be read: the input is over.
pub fn is_over(at: usize, n: usize, size: usize) -> bool
    ensures { result ≡ (eqb at 0 && ltb n size) }
{
    at == 0 && n < size
}
