// A hand as the rules see it, and the play: which cards and actions can have come about, when a card is due, and what a seat may do.
ghost use Rattle.std.specs.Prelude.{◌≡◌, ◌≤◌, ◌<◌, not, length};
ghost use Rattle.prelude.specs.internal.Places.{at_place};
ghost use Rattle.leduc_betting.specs.Betting.{counted, ended, in_play, turn};
ghost use Rattle.leduc_betting.specs.Cards.{remaining, seen};
ghost use Rattle.leduc_rules.specs.Reached.{possible};
ghost use Rattle.leduc_rules.specs.Rules.{public-due, due, live, legal};

use arrayvec::ArrayVec;
use leduc_betting::betting::{action_made, check_round, is_terminal, options_of, round_over};
use leduc_betting::cards::{all_seen, card_outside, card_twice, nth_remaining};

// The seats' cards, the public card, and the actions of each round. It carries no fact, of how many cards or actions there are: `is_possible` is asked of hands
// that no rules give, and the listing's spots have places for 11 actions in either round. So who puts cards together or adds up money asks for it in a clause.
#[derive(Clone, Copy)]
pub struct Hand<'a> {
    pub cards: &'a [u8],
    pub public: Option<u8>,
    pub first: &'a [u8],
    pub second: &'a [u8],
}

impl<'a> Hand<'a> {
    // The cards dealt: the seats', of which there are at most two, and the public one.
    pub fn seen(&self) -> ArrayVec<u8, 3>
        requires { length self.now.cards.now ≤ 2 }
        ensures { result.items ≡ seen self.now.cards.now self.now.public }
    {
        all_seen(self.cards, self.public)
    }

    // The card of an outcome among those left, ascending; none where there are not so many.
    pub fn card_left(&self, outcome: usize) -> Option<usize>
        requires { length self.now.cards.now ≤ 2 }
        ensures { result ≡ at_place (remaining (seen self.now.cards.now self.now.public)) outcome }
    {
        nth_remaining(&self.seen(), outcome)
    }

    // The actions of the round in play: round 2 once round 1 has closed.
    #[tactic(auto, using(leduc_betting::proofs::Branches::branches), unfolding(leduc_betting::specs::Betting::in_play))]
    pub fn in_play(&self) -> &'a [u8]
        ensures { result.now ≡ in_play self.now.first.now self.now.second.now }
    {
        if round_over(self.first) {
            self.second
        } else {
            self.first
        }
    }

    // The seat whose turn it is.
    #[tactic(auto, using(leduc_betting::proofs::Branches::branches), unfolding(leduc_betting::specs::Betting::turn))]
    pub fn turn(&self) -> usize
        ensures turn { result ≡ turn self.now.first.now self.now.second.now }
        ensures seat { result < 2 }
    {
        self.in_play().len() % crate::SEATS
    }

    // Whether the hand has ended.
    pub fn is_over(&self) -> bool
        ensures { result ≡ ended self.now.first.now self.now.second.now }
    {
        is_terminal(self.first, self.second)
    }

    // Whether the public card is due.
    #[tactic(auto, using(leduc_betting::proofs::Branches::branches, crate::proofs::Play::public_is_due))]
    pub fn is_public_due(&self) -> bool
        ensures { result ≡ public-due self.now.public self.now.first.now self.now.second.now }
    {
        self.public.is_none() && (round_over(self.first) && !self.is_over())
    }

    // Whether a card is due.
    #[tactic(auto, using(leduc_betting::proofs::Branches::branches), unfolding(crate::specs::Rules::due))]
    pub fn is_due(&self) -> bool
        ensures { result ≡ due self.now.cards.now self.now.public self.now.first.now self.now.second.now }
    {
        self.cards.len() < crate::SEATS || self.is_public_due()
    }

    // Whether a seat acts.
    #[tactic(auto, using(leduc_betting::proofs::Branches::branches), unfolding(crate::specs::Rules::live))]
    pub fn is_live(&self) -> bool
        ensures { result ≡ live self.now.cards.now self.now.public self.now.first.now self.now.second.now }
    {
        !self.is_due() && !self.is_over()
    }

    // What a seat may do: nothing unless it is its turn.
    #[tactic(auto, using(leduc_betting::proofs::Branches::branches), unfolding(crate::specs::Rules::legal))]
    pub fn legal(&self, seat: usize) -> &'static [u8]
        ensures { result.now ≡ legal self.now.cards.now self.now.public self.now.first.now self.now.second.now seat }
    {
        if self.is_live() && seat == self.turn() {
            options_of(self.in_play())
        } else {
            &[]
        }
    }

    // What a step makes of an action.
    pub fn action_made(&self, action: usize) -> u8
        ensures { result ≡ counted (in_play self.now.first.now self.now.second.now) action }
    {
        action_made(self.in_play(), action)
    }

    // Whether legal moves can have led here from the start. Inlined into each call on a position, so that its hand isn't first put into memory.
    #[tactic(auto, using(leduc_betting::proofs::Branches::branches, leduc_betting::proofs::Checks::played_if), unfolding(crate::specs::Reached::possible))]
    #[inline(always)]
    pub fn is_possible(&self) -> bool
        ensures { result ≡ possible self.now.cards.now self.now.public self.now.first.now self.now.second.now }
    {
        if crate::SEATS < self.cards.len() {
            return false;
        }
        let seen = self.seen();
        let blind = self.public.is_none();
        !card_outside(&seen)
            && (!card_twice(&seen)
                && ((self.cards.len() == crate::SEATS || self.first.is_empty())
                    && (check_round(self.first, false, false).is_ok()
                        && (check_round(self.second, false, false).is_ok()
                            && ((blind || round_over(self.first))
                                && (!blind || self.second.is_empty()))))))
    }
}
