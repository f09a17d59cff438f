// No code. Here a reader starts: the demands, each in one file (the first in two), of the answers and memory that the calls' contracts allow; the rest of proofs/ is what they cite.
// Demand1: which refusal each call of 01's "Order" gives, and that a refused call writes nothing; Demand1Rest, the other calls that can refuse.
// Demand2: matching, diagnosis, matched lists and the standard weight against W3C Selectors Level 3.
// Demand3: its three clauses, for calls made in any order.
// Examples: P1 to P8 of 01, one table under one theorem.
// Determined: "Every public function has a contract that determines its answer and lent memory afterwards".
// For demand 3 besides, with more said of each: the first half, which rules a state lists, that a fresh table lists the same, and what calls keep: Listed, of
// tables and states; Calls, from the calls' contracts to that; Cursor, what a RuleCursor yields. The second half, who wins and what changes: Winning and Changing; CascadeCalls.
// WalkExample, WalkWinners, WalkRun and WalkSheet are 01's example, whose definitions are in specs/Walk. Ladders, Along, Places, Tails, Sums and WalkSteps are proofs for these.
#![tactic(auto)]
