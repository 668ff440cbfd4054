// The numbers that each of the 16 calls of a host can give (01, 'Turned down'; 02): one table, and a call for each number of it, worked by
// computation.
#![tactic(auto)]
