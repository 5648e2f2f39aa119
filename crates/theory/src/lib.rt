// No code: every theorem about the definitions of `rules` stands in proofs/.
#![tactic(auto)]
