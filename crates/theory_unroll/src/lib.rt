// The theorems about loops written out (02, item 13): the result is accepted, does as the original up to the last instant before
// the original's run is wrong, and how often a command of it reacts and is entered in an instant that is not wrong. No code.
#![tactic(auto)]
