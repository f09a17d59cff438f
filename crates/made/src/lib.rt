// No code: what a made sheet is stands in specs/, what is so of every made sheet in proofs/.
#![tactic(auto)]
