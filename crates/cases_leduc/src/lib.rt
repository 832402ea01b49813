// A table of Leduc with its worths, best values and NashConv (specs/Numbers.antt), and records of Leduc's listing (specs/Records.antt), computed from the
// definitions.
#![tactic(auto)]
