// A box of eight bays (02, items 8 to 12): the calls on it, lists of calls, what 02 says of them, the box on paper, and the certificate.
// Definitions and worked examples.
#![tactic(auto)]
