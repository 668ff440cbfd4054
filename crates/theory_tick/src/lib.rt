// The theorems about the tick: the three demands, the ceiling, the two orders of the signal rules compared, what a tick delivers,
// and 01's replacements refuted. No code.
#![tactic(auto)]
