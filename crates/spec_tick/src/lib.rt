// One tick of a machine (01, 'States and resuming', 'Turned down', 'The fitters' paper'; 02): state and answer record, the tick and
// its rows, the machine on paper, the three demands, what a tick delivers, records of instants, recordings. Definitions and worked
// examples, no code.
#![tactic(auto)]
