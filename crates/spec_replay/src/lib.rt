// A recording checked against a sequence (02, item 14): the number and the place that the call gives, and what 02 says of them.
// Definitions and worked examples, no code.
#![tactic(auto)]
