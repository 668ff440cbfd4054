// The theorems about a box of eight bays (02, items 8 to 12): that it is the box on paper, that its readings are certified, every claim of
// spec_box; lists of calls worked by hand, and boxes with a slip each that break a claim.
#![tactic(auto)]
