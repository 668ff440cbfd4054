// The theorems about sequences of commands: reader and writer are each other's inverse, and the check goes by the rows. No code.
#![tactic(auto)]
