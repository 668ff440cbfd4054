// Kernel Pure Esterel with no bytes in it (01, 'One reaction' and 'States and resuming'; 02): statements, the rules of a reaction,
// errors, the number of reactions and its ceiling, litres, states, expansion, the machine by labels and the machine by rewriting.
// Definitions and worked examples, no code.
#![tactic(auto)]
