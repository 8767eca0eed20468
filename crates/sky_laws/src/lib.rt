// Round trips of a whole group: proofs only.
#![tactic(auto)]
