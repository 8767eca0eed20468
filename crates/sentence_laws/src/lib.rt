// Proofs alone, of all kinds of sentence: what is written is read back, what was read can be written, which field a 5 names, what a
// refusal's number can be, and that the numbers of what was read say it again.
#![tactic(auto)]
