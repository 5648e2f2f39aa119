// No code: the steps of proofs by hand, for functions over structs behind references, stand in proofs/. The check
// writes such proofs by itself now, so nothing cites them.
#![tactic(auto)]
