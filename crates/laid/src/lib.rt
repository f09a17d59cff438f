// No code: theorems of what `sheet` defines stand in proofs/.
#![tactic(auto)]
