// Profiles in f64: definitions and what holds of them.
#![tactic(auto)]
