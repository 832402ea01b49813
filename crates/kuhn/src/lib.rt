// Kuhn poker for 2 to 10 seats: positions by value, the rules calls and the saved-position check.
// A call makes its checks in the order of the refusals' numbers, and answers the first that fails.
#![tactic(auto)]

ghost use Rattle.std.specs.Prelude.{◌≡◌, [], ◌∷◌, length};
ghost use Rattle.refusals.specs.Outcomes.{number_of, moved_by, written_by, paid_by, written};
ghost use Rattle.kuhn_rules.specs.Rules.{PASS, BET};
ghost use Rattle.kuhn_rules.specs.Stakes.{ante, stake};
ghost use Rattle.kuhn_positions.specs.Positions.{initial};
ghost use Rattle.kuhn.specs.Calls.{start_refusal, started, dealt, stepped, legal_of, listed, key_of, keyed, paid, checked};

pub use kuhn_positions::KuhnState;
use kuhn_positions::hand::{Hand, end_mark, seats_outside};
use kuhn_positions::{with_action, with_card};
use refusals::{Payoffs, Refusal};

// The game: how many seats play.
#[derive(Clone, Copy)]
pub struct KuhnPoker {
    pub players: usize,
}

impl KuhnPoker {
    // The game's number in a call over a tree.
    pub const NUMBER: usize = 0;

    pub const PASS: u8 = kuhn_betting::PASS;

    pub const BET: u8 = kuhn_betting::BET;

    pub const LEAST_SEATS: usize = kuhn_positions::LEAST_SEATS;

    pub const MOST_SEATS: usize = kuhn_positions::MOST_SEATS;
    // The places of a position.
    pub const CARDS: usize = kuhn_positions::CARDS;

    pub const ACTIONS: usize = kuhn_positions::ACTIONS;
    // The stakes.
    pub const ANTE: u64 = kuhn_money::ANTE;

    pub const STAKE: u64 = kuhn_money::STAKE;

    // What the constants are: the game, actions, seats, places of a position, stakes. By `as`, since std has no From between usize and u64.
    fn constants() -> [u64; 9]
        ensures { result ≡ 0 ∷ PASS ∷ BET ∷ 2 ∷ 10 ∷ 10 ∷ 19 ∷ ante ∷ stake ∷ [] }
    {
        [
            Self::NUMBER as u64,
            u64::from(Self::PASS),
            u64::from(Self::BET),
            Self::LEAST_SEATS as u64,
            Self::MOST_SEATS as u64,
            Self::CARDS as u64,
            Self::ACTIONS as u64,
            Self::ANTE,
            Self::STAKE,
        ]
    }

    // Refuses a seat count outside 2 to 10.
    pub fn validate(self) -> Result<(), Refusal>
        ensures { number_of result ≡ start_refusal self }
    {
        if seats_outside(self.players) {
            return Err(Refusal::Seats);
        }
        Ok(())
    }

    // Start: the initial position.
    pub fn initial_state(self) -> Result<KuhnState, Refusal>
        ensures { moved_by initial result ≡ started self }
    {
        self.validate()?;
        Ok(KuhnState::new())
    }

    // Step: the seat whose turn it is acts; every action above 1 counts as a bet.
    #[tactic(auto, using(prelude::proofs::Sides::tests), unfolding(crate::specs::Calls::step_refusal))]
    pub fn step(self, state: KuhnState, action: usize) -> Result<KuhnState, Refusal>
        ensures { moved_by state result ≡ stepped self state action }
    {
        let hand = Hand::reached(self.players, state)?;
        if !hand.is_live() {
            return Err(Refusal::Unfit);
        }
        Ok(with_action(state, action))
    }

    // Deal: the next seat gets the card of an outcome, which counts those left from the lowest.
    #[tactic(auto, using(prelude::proofs::Sides::tests), unfolding(crate::specs::Calls::deal_refusal))]
    pub fn apply_chance_node(self, state: KuhnState, outcome: usize) -> Result<KuhnState, Refusal>
        ensures { moved_by state result ≡ dealt self state outcome }
    {
        let hand = Hand::reached(self.players, state)?;
        let cards = hand.cards();
        if self.players <= cards.len() {
            return Err(Refusal::Unfit);
        }
        match kuhn_cards::nth_remaining(cards, self.players, outcome) {
            Some(card) => Ok(with_card(state, card)),
            None => Err(Refusal::Unfit),
        }
    }

    // Legal list: what a seat may do, written to out; nothing while it is not its turn. Answers how many bytes that is.
    #[tactic(auto, using(prelude::proofs::Sides::tests), unfolding(crate::specs::Calls::legal_refusal, crate::specs::Calls::legal_of))]
    pub fn legal_actions(
        self,
        state: KuhnState,
        seat: usize,
        out: &mut [u8],
    ) -> Result<usize, Refusal>
        ensures answer { written_by state result ≡ listed self state seat (length out.old) }
        ensures output { out.new ≡ written (number_of result) (legal_of self state seat) out.old }
    {
        let actions = Hand::reached(self.players, state)?.legal(seat);
        if out.len() < actions.len() {
            return Err(Refusal::Output);
        }
        prelude::copy_at(out, 0, actions);
        Ok(actions.len())
    }

    // Key: what a seat that has a card knows, written to out. Answers how many bytes that is.
    #[tactic(auto, using(prelude::proofs::Sides::tests), unfolding(crate::specs::Calls::key_refusal, crate::specs::Calls::key_of))]
    pub fn information_state_key(
        self,
        state: KuhnState,
        seat: usize,
        out: &mut [u8],
    ) -> Result<usize, Refusal>
        ensures answer { written_by state result ≡ keyed self state seat (length out.old) }
        ensures output { out.new ≡ written (number_of result) (key_of state seat) out.old }
    {
        let hand = Hand::reached(self.players, state)?;
        let cards = hand.cards();
        if cards.len() <= seat {
            return Err(Refusal::Unfit);
        }
        let history = hand.history();
        if out.len() < 2 + history.len() {
            return Err(Refusal::Output);
        }
        // By `as`, since u8 has no From of a usize.
        out[0] = seat as u8;
        out[1] = cards[seat];
        prelude::copy_at(out, 2, history);
        Ok(2 + history.len())
    }

    // Payoff: what each seat gains or loses at the end of the hand.
    #[tactic(auto, using(prelude::proofs::Sides::tests), unfolding(crate::specs::Calls::payoff_refusal))]
    pub fn payouts(self, state: KuhnState) -> Result<Payoffs, Refusal>
        ensures { paid_by state result ≡ paid self state }
    {
        let hand = Hand::reached(self.players, state)?;
        if !hand.is_over() {
            return Err(Refusal::Unfit);
        }
        Ok(Payoffs {
            count: self.players,
            payoffs: kuhn_money::payoffs(hand.cards(), hand.history()),
        })
    }

    // Saved position: whether it can be one, and its end mark says whether the hand has ended. The mark is a number, since a caller of C may hand in any.
    #[tactic(auto, using(prelude::proofs::Sides::tests), unfolding(crate::specs::Calls::saved_refusal))]
    pub fn validate_decoded_state(self, state: KuhnState, done: u64) -> Result<(), Refusal>
        ensures { checked self state done ≡ record { refusal = number_of result; state = state } }
    {
        let hand = Hand::saved(self.players, state)?;
        if done != end_mark(hand.history(), self.players) {
            return Err(Refusal::EndMark);
        }
        Ok(())
    }
}
