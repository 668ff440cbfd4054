// What the programs print (01, 'Bays to run'; 02, items 13 and 14): the file of a run and its listing, what the unroll program
// writes, what the replay program says. Definitions and worked examples, no code.
#![tactic(auto)]
