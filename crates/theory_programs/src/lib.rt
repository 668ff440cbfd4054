// The theorems about the listing of a run (01, 'Bays to run'): its pieces, turn by turn, are the listing, and without setpause it
// says what the paper says. No code.
#![tactic(auto)]
