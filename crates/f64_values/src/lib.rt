// The best response value of a seat in f64, and the choices behind it, over a stored tree with the seat's reaches.
#![tactic(auto)]

pub mod values;
