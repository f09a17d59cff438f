// The numbers given back on refusal, words lent in a slice, and lists end to end over a pool.
#![tactic(auto)]

ghost use Rattle.std.specs.Prelude.{◌≡◌};
ghost use Rattle.lent.specs.Refusals.{number_of, refusal_of};

use std::error::Error;
use std::fmt;

pub mod held;
pub mod lists;
pub mod words;

// 01, "Numbers given back on refusal": a case for each number, in the table's order.
#[derive(Clone, Copy, Debug, PartialEq, Eq)]
pub enum Refusal {
    // 1: ids or property ids that are not strictly ascending
    NotAscending,
    // 2: a count over its size, or past the lent list that it counts
    OverSize,
    // 3: combinators that are not one fewer than the steps
    CombinatorCount,
    // 4: a state of another table, or none of this one's
    NotAState,
    // 5: no room for a state
    NoRoom,
    // 6: an origin rank, a ranking, a combinator or an entry kind out of range
    CodeOutOfRange,
    // 7: the source indexes are used up
    NoSourceIndex,
    // 8: the buffer for an answer's list is too short
    BufferTooShort,
    // 9: no such rule
    NoSuchRule,
    // 10: a house record that can't be read, with the byte offset
    BadRecord(u64),
    // 11: a lent sheet or table that breaks its shape
    BrokenShape,
}

impl Refusal {
    // The number that 01 gives it.
    pub fn number(self) -> u32
        ensures { result ≡ number_of self }
    {
        match self {
            Refusal::NotAscending => 1,
            Refusal::OverSize => 2,
            Refusal::CombinatorCount => 3,
            Refusal::NotAState => 4,
            Refusal::NoRoom => 5,
            Refusal::CodeOutOfRange => 6,
            Refusal::NoSourceIndex => 7,
            Refusal::BufferTooShort => 8,
            Refusal::NoSuchRule => 9,
            Refusal::BadRecord(_) => 10,
            Refusal::BrokenShape => 11,
        }
    }
}

// The refusal with a number; 10 at offset 0.
impl From<u32> for Refusal {
    ghost from_gives = { λ number refusal. refusal ≡ refusal_of number };

    fn from(number: u32) -> Refusal {
        match number {
            1 => Refusal::NotAscending,
            2 => Refusal::OverSize,
            3 => Refusal::CombinatorCount,
            4 => Refusal::NotAState,
            5 => Refusal::NoRoom,
            6 => Refusal::CodeOutOfRange,
            7 => Refusal::NoSourceIndex,
            8 => Refusal::BufferTooShort,
            9 => Refusal::NoSuchRule,
            10 => Refusal::BadRecord(0),
            _ => Refusal::BrokenShape,
        }
    }
}

impl fmt::Display for Refusal {
    fn fmt<W: fmt::Write>(&self, f: &mut fmt::Formatter<W>) -> fmt::Result {
        match self {
            Refusal::NotAscending => write!(f, "1: ids or property ids do not ascend"),
            Refusal::OverSize => write!(f, "2: a count is over its size, or past its list"),
            Refusal::CombinatorCount => write!(
                f,
                "3: combinators are not one fewer than the steps"
            ),
            Refusal::NotAState => write!(f, "4: no state of this table"),
            Refusal::NoRoom => write!(f, "5: no room for a state"),
            Refusal::CodeOutOfRange => write!(
                f,
                "6: an origin, a ranking, a combinator or a kind is out of range"
            ),
            Refusal::NoSourceIndex => write!(f, "7: the source indexes are used up"),
            Refusal::BufferTooShort => write!(f, "8: the buffer for the answer is too short"),
            Refusal::NoSuchRule => write!(f, "9: no such rule"),
            Refusal::BadRecord(at) => write!(f, "10: the record at byte {at} can't be read"),
            Refusal::BrokenShape => write!(f, "11: the sheet or table is not in shape"),
        }
    }
}

impl Error for Refusal {}
