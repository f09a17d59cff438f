// What holds of every table that build and accepted calls made: theorems, no code.
#![tactic(auto)]
