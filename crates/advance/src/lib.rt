// Entering a subject: which cursors and rules arise, put in ascending order by one walk over the two lists.
#![tactic(auto)]

pub mod held;
