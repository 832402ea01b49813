// Positions of Kuhn poker by value, one card or action more, and what a call asks of one. The calls are in the crate kuhn.
#![tactic(auto)]

pub mod hand;

ghost use Rattle.std.specs.Prelude.{◌≡◌, ◌≤◌, ◌<◌};
ghost use Rattle.kuhn_positions.specs.Positions.{initial, with_card, with_action, counted};

use kuhn_betting::{BET, PASS};

// The seats: at least, and at most.
pub const LEAST_SEATS: usize = 2;

pub const MOST_SEATS: usize = 10;

// The places of a position: a card for each of ten seats, and the 2 × 10 - 1 actions of the longest hand.
pub const CARDS: usize = 10;

pub const ACTIONS: usize = 19;

// A position: the cards dealt, seat by seat, and the actions made. Places past a length are not part of it.
// Kept as arrays with their lengths, since positions go in and out by value, with no heap, and places past a length come back as they were.
#[derive(Clone, Copy)]
pub struct KuhnState {
    pub cards: [u8; 10],
    pub dealt: usize,
    pub history: [u8; 19],
    pub acted: usize,
}

impl KuhnState {
    // The initial position: no card dealt, no action made.
    pub fn new() -> Self
        ensures { result ≡ initial }
    {
        KuhnState {
            cards: [0; 10],
            dealt: 0,
            history: [0; 19],
            acted: 0,
        }
    }
}

// One card more. Kept as functions beside KuhnState, and no methods, since callers of the library see KuhnState, and are asked nothing.
pub fn with_card(mut state: KuhnState, card: usize) -> KuhnState
    requires { (state.dealt < 10) × (card ≤ 10) }
    ensures { result ≡ with_card state card }
{
    // By `as`, since u8 has no From of a usize.
    state.cards[state.dealt] = card as u8;
    state.dealt += 1;
    state
}

// One action more.
pub fn with_action(mut state: KuhnState, action: usize) -> KuhnState
    requires { state.acted < 19 }
    ensures { result ≡ with_action state (counted action) }
{
    state.history[state.acted] = as_action(action);
    state.acted += 1;
    state
}

// Every action above 1 counts as a bet.
fn as_action(action: usize) -> u8
    ensures { result ≡ counted action }
{
    match action {
        0 => PASS,
        _ => BET,
    }
}
