// The table of the numbers of calls is exact, for boxes that calls reach and for all boxes.
#![tactic(auto)]
