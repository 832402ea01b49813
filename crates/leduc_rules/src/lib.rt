// Leduc hold'em on cards and histories: what the rules say of them.
// The money is computed in the crate leduc_money; positions are in the crate leduc_positions, the calls on them in the crate leduc.
#![tactic(auto)]

pub mod hand;
pub mod saved;

// The seats.
pub const SEATS: usize = 2;

// The actions of the longest round.
pub const ROUND: usize = 4;

// The stakes: the ante, and what a raise adds in round 1 and in round 2.
pub const ANTE: usize = 1;

pub const RAISE_ONE: usize = 2;

pub const RAISE_TWO: usize = 4;

// What the seat to act and the other have paid.
#[derive(Clone, Copy)]
pub struct Pot {
    pub acting: usize,
    pub other: usize,
}
