// The calls for C, in libchukkanalli.a; include/chukkanalli.h declares them. Each converts the position it is handed, makes one call of
// the crate of that call, and converts the answer: on every input it gives what that call gives.
#![tactic(auto)]

mod comparison_call;
mod float_calls;
mod kuhn_calls;
mod leduc_calls;
mod listing_call;
mod units_calls;
