// What crosses to C: twins of the structs of crates kuhn and leduc, and the conversions in and out.
#![tactic(auto)]

pub mod of_kuhn;
pub mod of_leduc;
