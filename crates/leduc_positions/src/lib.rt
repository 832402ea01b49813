// Positions of Leduc hold'em by value: the hand that one holds, one card or action more, and the checks of a saved one. The calls are in the crate leduc.
#![tactic(auto)]

ghost use Rattle.std.specs.Prelude.{◌≡◌, ◌≤◌, ◌<◌, IfOk, IfSome, IsSome, ◌↔◌};
ghost use Rattle.refusals.specs.Refusals.{first};
ghost use Rattle.refusals.specs.Outcomes.{number_of};
ghost use Rattle.leduc_positions.specs.Positions.{initial, with_card, with_action, position_checks, saved_checks};
ghost use Rattle.leduc_positions.specs.Hands.{IsShort, Holds};

use leduc_betting::betting::round_over;
use leduc_betting::cards::all_seen;
use leduc_rules::hand::Hand;
use leduc_rules::saved::{check_cards, check_history, check_public, is_barred};
use leduc_rules::{ROUND, SEATS};
use refusals::Refusal;

// A position: the seats' cards, the public card, and the actions of round 1 from place 0 and of round 2 from place 4.
// Places past a length are not part of it. Kept as arrays with their lengths, since positions go in and out by value, with no heap, and places past a length
// come back as they were.
#[derive(Clone, Copy)]
pub struct LeducState {
    pub cards: [u8; 2],
    pub dealt: usize,
    pub public: Option<u8>,
    pub history: [u8; 8],
    pub acted1: usize,
    pub acted2: usize,
}

impl LeducState {
    // The initial position: no card dealt, no action made.
    pub fn new() -> Self
        ensures { result ≡ initial }
    {
        LeducState {
            cards: [0u8; 2],
            dealt: 0,
            public: None,
            history: [0u8; 8],
            acted1: 0,
            acted2: 0,
        }
    }

    // The hand that a position holds; none if a length is above its part of the arrays.
    pub fn hand(&self) -> Option<Hand<'_>>
        ensures some { IsSome result ↔ IsShort self.now }
        ensures hand { IfSome result (Holds self.now) }
    {
        Some(Hand {
            cards: self.cards.get(..self.dealt)?,
            public: self.public,
            first: self.history[..ROUND].get(..self.acted1)?,
            second: self.history[ROUND..].get(..self.acted2)?,
        })
    }

    // The hand of a position that legal moves reach from the start. Inlined, as is_possible is.
    #[inline(always)]
    pub fn reached(&self) -> Result<Hand<'_>, Refusal>
        ensures number { number_of result ≡ first (position_checks self.now) }
        ensures hand { IfOk result (Holds self.now) }
    {
        match self.hand() {
            Some(hand) if hand.is_possible() => Ok(hand),
            _ => Err(Refusal::Unreachable),
        }
    }

    // The hand of a saved position, by numbers 10 to 17.
    pub fn saved(&self) -> Result<Hand<'_>, Refusal>
        ensures number { number_of result ≡ first (saved_checks self.now) }
        ensures hand { IfOk result (Holds self.now) }
    {
        if self.dealt != SEATS {
            return Err(Refusal::CardCount);
        }
        let blind = self.public.is_none();
        check_cards(&all_seen(&self.cards, self.public))?;
        let first = check_history(&self.history[..ROUND], self.acted1, false, false)?;
        let second = check_history(&self.history[ROUND..], self.acted2, is_barred(first), blind)?;
        check_public(first, second, blind)?;
        Ok(Hand {
            cards: &self.cards,
            public: self.public,
            first,
            second,
        })
    }
}

// The position with one card more: a seat's, or the public one once both have theirs. A function, as the next is, and no method of LeducState: a method would
// be a call of the library, and the next one asks how many actions were made, where callers of the library are asked nothing.
pub fn with_card(mut state: LeducState, card: u8) -> LeducState
    ensures { result ≡ with_card state card }
{
    if state.dealt < SEATS {
        state.cards[state.dealt] = card;
        state.dealt += 1;
    } else {
        state.public = Some(card);
    }
    state
}

// The position with one action more: of round 1, or of round 2 once round 1 has closed.
pub fn with_action(mut state: LeducState, action: u8) -> LeducState
    requires { (state.acted1 ≤ 4) × (state.acted2 < 4) }
    ensures { result ≡ with_action state action }
{
    if round_over(&state.history[..state.acted1]) {
        state.history[ROUND + state.acted2] = action;
        state.acted2 += 1;
    } else {
        state.history[state.acted1] = action;
        state.acted1 += 1;
    }
    state
}
