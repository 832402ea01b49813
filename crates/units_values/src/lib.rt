// The best value of a seat and the choices behind it, over a stored tree with the units of each node.
#![tactic(auto)]

pub mod values;
