// The sheet's part of standard input, read in pieces.
#![tactic(auto)]

pub mod held;
