// The walk's part of standard input, read in pieces, and its lines written out.
#![tactic(auto)]

pub mod held;
