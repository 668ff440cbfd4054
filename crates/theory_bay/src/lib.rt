// The laws of one bay: what the fields of its slot hold after each thing that is written to it (02, item 8); and the theorems about
// previews (02, item 11). No code.
#![tactic(auto)]
