// A hand of so many seats at a position, and what a call asks of both before it answers.
ghost use Rattle.std.specs.Prelude.{◌≡◌, true, false, ◌≤◌, IfOk, OnOk};
ghost use Rattle.std.specs.Bool.{OnTrue, OnFalse};
ghost use Rattle.refusals.specs.Refusals.{first};
ghost use Rattle.refusals.specs.Outcomes.{number_of};
ghost use Rattle.kuhn_rules.specs.Rules.{live, over, ended, legal};
ghost use Rattle.kuhn_rules.specs.Reached.{fair, played};
ghost use Rattle.kuhn_positions.specs.Positions.{seats-out, reachable, cards_of, history_of, position_checks, saved_checks, mark};

use crate::KuhnState;
use kuhn_betting::{BET, PASS, is_terminal, past_the_end, unknown_action};
use kuhn_cards::{card_outside, card_twice};
use refusals::Refusal;

// Whether the seat count is outside 2 to 10.
#[tactic(auto, using(prelude::proofs::Sides::tests))]
pub fn seats_outside(n: usize) -> bool
    ensures exact { result ≡ seats-out n }
    ensures inside { OnFalse result ((2 ≤ n) × (n ≤ 10)) }
{
    n < crate::LEAST_SEATS || crate::MOST_SEATS < n
}

// Whether the cards are at most one a seat, of the deck, and differ.
#[tactic(auto, using(prelude::proofs::Sides::tests), unfolding(kuhn_rules::specs::Reached::fair))]
fn fairly_dealt(cards: &[u8], n: usize) -> bool
    ensures { result ≡ fair n cards.now }
{
    cards.len() <= n && !card_outside(cards, n) && !card_twice(cards)
}

// Whether the actions are known and none stands after the end.
#[tactic(auto, using(prelude::proofs::Sides::tests), unfolding(kuhn_rules::specs::Reached::played))]
fn well_played(history: &[u8], n: usize) -> bool
    requires { 1 ≤ n }
    ensures { result ≡ played n history.now }
{
    !unknown_action(history) && !past_the_end(history, n)
}

// Whether a position can be reached from the start by legal moves.
#[tactic(auto, using(prelude::proofs::Sides::tests), unfolding(crate::specs::Positions::reachable, kuhn_rules::specs::Reached::possible))]
pub fn is_reachable(n: usize, state: &KuhnState) -> bool
    requires { 1 ≤ n }
    ensures exact { result ≡ reachable n state.now }
    ensures within { OnTrue result ((state.now.dealt ≤ 10) × (state.now.acted ≤ 19)) }
{
    if crate::CARDS < state.dealt || crate::ACTIONS < state.acted {
        return false;
    }
    let cards = &state.cards[..state.dealt];
    let history = &state.history[..state.acted];
    fairly_dealt(cards, n) && (history.is_empty() || cards.len() == n) && well_played(history, n)
}

// So many seats at a position whose lengths its arrays hold.
#[derive(Clone, Copy)]
pub struct Hand {
    pub players: usize,
    pub state: KuhnState,
    ghost seats: { (1 ≤ players) × (players ≤ 10) },
    ghost within: { (state.dealt ≤ 10) × (state.acted ≤ 19) },
}

impl Hand {
    // The hand at a position that legal moves reach: what every rules call on a position checks first.
    #[inline(always)]
    pub fn reached(players: usize, state: KuhnState) -> Result<Hand, Refusal>
        ensures refusal { number_of result ≡ first (position_checks players state) }
        ensures position { IfOk result (λ hand. (hand.players ≡ players) × (hand.state ≡ state)) }
        ensures passed { OnOk result ((seats-out players ≡ false) × (reachable players state ≡ true)) }
    {
        if seats_outside(players) {
            Err(Refusal::Seats)
        } else if is_reachable(players, &state) {
            Ok(Hand { players, state })
        } else {
            Err(Refusal::Unreachable)
        }
    }

    // The hand at a saved position, if nothing is wrong with it, whatever its end mark says.
    #[tactic(auto, using(prelude::proofs::Sides::tests))]
    pub fn saved(players: usize, state: KuhnState) -> Result<Hand, Refusal>
        ensures refusal { number_of result ≡ first (saved_checks players state) }
        ensures position { IfOk result (λ hand. (hand.players ≡ players) × (hand.state ≡ state)) }
    {
        if seats_outside(players) {
            return Err(Refusal::Seats);
        }
        if state.dealt != players {
            return Err(Refusal::CardCount);
        }
        let cards = &state.cards[..state.dealt];
        if card_outside(cards, players) {
            return Err(Refusal::Card);
        }
        if card_twice(cards) {
            return Err(Refusal::CardTwice);
        }
        if 2 * players - 1 < state.acted {
            return Err(Refusal::History);
        }
        let history = &state.history[..state.acted];
        if unknown_action(history) {
            return Err(Refusal::History);
        }
        if past_the_end(history, players) {
            return Err(Refusal::Closed);
        }
        Ok(Hand { players, state })
    }

    // The cards dealt.
    pub fn cards(&self) -> &[u8]
        ensures { result.now ≡ cards_of self.now.state }
    {
        &self.state.cards[..self.state.dealt]
    }

    // The actions made.
    pub fn history(&self) -> &[u8]
        ensures { result.now ≡ history_of self.now.state }
    {
        &self.state.history[..self.state.acted]
    }

    // Whether the actions end the hand.
    fn has_ended(&self) -> bool
        ensures { result ≡ ended self.now.players (history_of self.now.state) }
    {
        is_terminal(self.history(), self.players)
    }

    // Whether a seat acts: all cards are dealt and the hand has not ended.
    #[tactic(auto, using(prelude::proofs::Sides::tests))]
    pub fn is_live(&self) -> bool
        ensures { result ≡ live self.now.players (cards_of self.now.state) (history_of self.now.state) }
    {
        self.cards().len() == self.players && !self.has_ended()
    }

    // Whether the hand is over.
    #[tactic(auto, using(prelude::proofs::Sides::tests))]
    pub fn is_over(&self) -> bool
        ensures { result ≡ over self.now.players (cards_of self.now.state) (history_of self.now.state) }
    {
        self.cards().len() == self.players && self.has_ended()
    }

    // What a seat may do: pass or bet at its turn, else nothing.
    #[tactic(auto, using(prelude::proofs::Sides::tests), unfolding(kuhn_rules::specs::Rules::legal))]
    pub fn legal(&self, seat: usize) -> &'static [u8]
        ensures { result.now ≡ legal self.now.players (cards_of self.now.state) (history_of self.now.state) seat }
    {
        if self.is_live() && seat == self.history().len() % self.players {
            &[PASS, BET]
        } else {
            &[]
        }
    }
}

// The end mark of a hand: 0 of a live one, 1 of one that has ended.
pub fn end_mark(history: &[u8], n: usize) -> u64
    requires { 1 ≤ n }
    ensures { result ≡ mark (ended n history.now) }
{
    u64::from(is_terminal(history, n))
}
