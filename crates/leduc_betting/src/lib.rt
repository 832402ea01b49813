// Leduc hold'em on cards and histories: the betting and the cards. The deal and the checks over them are in the crate leduc_rules, the money is in leduc_money.
#![tactic(auto)]

pub mod betting;
pub mod cards;

// The actions. They stay bytes, and no enum: positions, keys and legal lists cross to C as bytes, and a history that is handed in may hold any.
pub const FOLD: u8 = 0;

pub const CALL: u8 = 1;

pub const RAISE: u8 = 2;

// The cards of the deck.
pub const DECK: u8 = 6;

// The raises of a round.
pub const RAISES: usize = 2;
