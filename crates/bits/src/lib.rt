// No code: the definitions stand in specs/, the laws in proofs/.
#![tactic(auto)]
