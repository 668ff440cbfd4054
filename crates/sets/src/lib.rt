// The laws of sets of small numbers, which stand for sets of signals and of labels: members, tests, sets below a width, sets in two
// words, subsets. Proofs, no code.
#![tactic(auto)]
