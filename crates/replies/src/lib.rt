// Records 9 to 12 answered, as lines in a lent buffer.
#![tactic(auto)]

pub mod held;

// Where the next line goes, and whether the program ends. The other fields hold either way.
#[derive(Clone, Copy, Debug, PartialEq, Eq)]
pub struct Replied {
    pub used: usize,
    pub ends: bool,
}
