// The theorems about kernel Pure Esterel, and the definitions that only they and the code go by: the signals that a reaction asks
// for, ranks of active pauses, an instant from those of the parts, the farms that a statement names. No code.
#![tactic(auto)]
