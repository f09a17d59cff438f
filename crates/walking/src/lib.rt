// House records after kind 8, fed in pieces: each answered by a line.
#![tactic(auto)]

pub mod held;
