// Leduc hold'em for two seats: positions by value, the rules calls and the saved-position check.
// A call that is refused says why, by the first check that it does not pass; the caller has the position that it handed in.
#![tactic(auto)]

mod output;

ghost use Rattle.std.specs.Prelude.{◌≡◌, [], ◌∷◌, length};
ghost use Rattle.refusals.specs.Outcomes.{number_of, moved_by, written_by, paid_by, written};
ghost use Rattle.leduc_betting.specs.Betting.{FOLD, CALL, RAISE};
ghost use Rattle.leduc_rules.specs.Stakes.{ante, raise₁, raise₂};
ghost use Rattle.leduc_positions.specs.Positions.{legal_of};
ghost use Rattle.leduc.specs.Calls.{started, dealt, stepped, listed, key_of, keyed, paid, checked};

use crate::output::write_key;
use leduc_money::settled;
pub use leduc_positions::LeducState;
use leduc_positions::{with_action, with_card};
use prelude::copy_at;
use refusals::{Payoffs, Refusal};

// The game.
#[derive(Clone, Copy)]
pub struct LeducPoker {}

impl LeducPoker {
    // The game's number in a call over a tree.
    pub const NUMBER: usize = 1;

    pub const FOLD: u8 = leduc_betting::FOLD;

    pub const CALL: u8 = leduc_betting::CALL;

    pub const RAISE: u8 = leduc_betting::RAISE;

    pub const DECK: u8 = leduc_betting::DECK;

    pub const RAISES: usize = leduc_betting::RAISES;

    pub const SEATS: usize = leduc_rules::SEATS;

    pub const ROUND: usize = leduc_rules::ROUND;

    pub const ANTE: usize = leduc_rules::ANTE;

    pub const RAISE_ONE: usize = leduc_rules::RAISE_ONE;

    pub const RAISE_TWO: usize = leduc_rules::RAISE_TWO;

    // What the constants are: the game, actions, cards, raises a round, seats, actions a round, stakes.
    fn constants() -> [u64; 11]
        ensures { result ≡ 1 ∷ FOLD ∷ CALL ∷ RAISE ∷ 6 ∷ 2 ∷ 2 ∷ 4 ∷ ante ∷ raise₁ ∷ raise₂ ∷ [] }
    {
        // `as` for the usize ones: u64 has no From for usize.
        [
            Self::NUMBER as u64,
            u64::from(Self::FOLD),
            u64::from(Self::CALL),
            u64::from(Self::RAISE),
            u64::from(Self::DECK),
            Self::RAISES as u64,
            Self::SEATS as u64,
            Self::ROUND as u64,
            Self::ANTE as u64,
            Self::RAISE_ONE as u64,
            Self::RAISE_TWO as u64,
        ]
    }

    // Start: the initial position.
    pub fn initial_state() -> LeducState
        ensures { result ≡ started.state }
    {
        LeducState::new()
    }

    // Legal list: what a seat may do at its turn; nothing otherwise.
    pub fn legal_actions(state: LeducState, agent: usize, out: &mut [u8]) -> Result<usize, Refusal>
        ensures answer { written_by state result ≡ listed state agent (length out.old) }
        ensures output { out.new ≡ written (number_of result) (legal_of state agent) out.old }
    {
        let legal = state.reached()?.legal(agent);
        if out.len() < legal.len() {
            return Err(Refusal::Output);
        }
        // A list that isn't empty is one of four constants. Only behind this test the compiler sees that, and takes memcpy for the copy, and not memmove.
        if !legal.is_empty() {
            copy_at(out, 0, legal);
        }
        Ok(legal.len())
    }

    // Deal: the card of an outcome among those left, ascending.
    pub fn apply_chance_node(state: LeducState, outcome: usize) -> Result<LeducState, Refusal>
        ensures { moved_by state result ≡ dealt state outcome }
    {
        let hand = state.reached()?;
        if !hand.is_due() {
            return Err(Refusal::Unfit);
        }
        match hand.card_left(outcome) {
            // A cast of a card, which is below 6: u8::try_from would have an error that never comes.
            Some(card) => Ok(with_card(state, card as u8)),
            None => Err(Refusal::Unfit),
        }
    }

    // Step: the seat whose turn it is acts; an illegal action becomes FOLD if that is legal, else CALL.
    pub fn step(state: LeducState, action: usize) -> Result<LeducState, Refusal>
        ensures { moved_by state result ≡ stepped state action }
    {
        let hand = state.reached()?;
        if !hand.is_live() {
            return Err(Refusal::Unfit);
        }
        let made = hand.action_made(action);
        Ok(with_action(state, made))
    }

    // Key: what a seat that has a card knows.
    pub fn information_state_key(
        state: LeducState,
        agent: usize,
        out: &mut [u8],
    ) -> Result<usize, Refusal>
        ensures answer { written_by state result ≡ keyed state agent (length out.old) }
        ensures output { out.new ≡ written (number_of result) (key_of state agent) out.old }
    {
        let hand = state.reached()?;
        if hand.cards.len() <= agent {
            return Err(Refusal::Unfit);
        }
        let bytes = 5 + hand.first.len() + hand.second.len();
        if out.len() < bytes {
            return Err(Refusal::Output);
        }
        write_key(&hand, agent, out);
        Ok(bytes)
    }

    // Payoff: what each seat gains at the end of the hand.
    pub fn payouts(state: LeducState) -> Result<Payoffs, Refusal>
        ensures { paid_by state result ≡ paid state }
    {
        let hand = state.reached()?;
        if !hand.is_over() {
            return Err(Refusal::Unfit);
        }
        let gains = settled(&hand);
        Ok(Payoffs {
            count: LeducPoker::SEATS,
            payoffs: [gains[0], gains[1], 0, 0, 0, 0, 0, 0, 0, 0],
        })
    }

    // Saved position with its end mark: 0 for a live hand, 1 for one that has ended. The mark is a number, since a caller of C may hand in any.
    pub fn validate_decoded_state(state: LeducState, done: u64) -> Result<(), Refusal>
        ensures { record { refusal = number_of result; state = state } ≡ checked state done }
    {
        let hand = state.saved()?;
        if done != u64::from(hand.is_over()) {
            return Err(Refusal::EndMark);
        }
        Ok(())
    }
}
