// The spots of Leduc's walk: a position, and it with one card or action more. A spot is no LeducState: that has four places for a round,
// which the rules alone say is enough; a spot has places for all moves of a hand in either round, so that counting moves is enough.
#![tactic(auto)]

pub mod moves;
pub mod spot;

// Where a move went, so that it can be taken back; of the public card also what lay there before.
#[derive(Clone, Copy)]
pub enum Made {
    Card,
    Public(Option<u8>),
    First,
    Second,
}
