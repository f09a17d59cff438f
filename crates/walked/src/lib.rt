// What `walk` prints: theorems, no code.
#![tactic(auto)]
