// House records up to kind 8, fed in pieces: a sheet made of them.
#![tactic(auto)]

pub mod held;
