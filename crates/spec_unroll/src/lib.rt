// Loops written out (02, item 13): copy and result, the call with its rows, what is compared of two runs, and how often a command
// reacts in an instant. Definitions and worked examples, no code.
#![tactic(auto)]
