// Whole units over a tree in work memory.
#![tactic(auto)]

pub mod shares;
pub mod sums;

// Units are below this number, 2^57. A bound in the clauses and no type: each step multiplies or divides units, so that a value of a type would be opened and
// made anew, with its proof, at every one.
pub const UNITS: u64 = 144115188075855872;
