// What every other definition uses: the widths and limits of 01 and 02, sets of small numbers, numbers as bytes, lowest first,
// bytes at an offset, and litres as single-precision numbers. Definitions, no code.
#![tactic(auto)]
