// Sequences of commands as bytes (01, 'Commands' and 'Turned down'; 02): the table of commands, reader and writer, the check, its
// rows as propositions, the program of a host and its ceiling. Definitions and worked examples, no code.
#![tactic(auto)]
