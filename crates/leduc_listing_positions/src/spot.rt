// A spot.
ghost use Rattle.std.specs.Prelude.{◌≡◌, ◌++◌, ◌+◌, ◌≤◌, length};

use crate::Made;
use crate::moves::Moves;
use arrayvec::ArrayVec;
use leduc_betting::betting::round_over;
use leduc_betting::cards::{all_seen, nth_remaining};
use leduc_rules::SEATS;
use leduc_rules::hand::Hand;
use listing_records::KEY;

// A position of the walk: the seats' cards, the public card, and the actions of each round, with places for as many as a hand has moves: 11, the first card
// and the LATER_MOVES of the crate leduc_listing.
#[derive(Clone, Copy)]
pub struct Spot {
    pub cards: Moves<2>,
    pub public: Option<u8>,
    pub first: Moves<11>,
    pub second: Moves<11>,
}

// Puts bytes behind those of a key.
fn append(key: &mut ArrayVec<u8, KEY>, bytes: &[u8])
    requires { length key.old.items + length bytes.now ≤ 13 }
    ensures { key.new.items ≡ key.old.items ++ bytes.now }
{
    key.try_extend_from_slice(bytes).unwrap();
}

impl Spot {
    ghost use Rattle.leduc_tree.specs.Tree.{start, actor, key, dealt, acted};
    ghost use Rattle.leduc_tree.specs.Turns.{is_first};
    ghost use Rattle.leduc_listing_positions.specs.internal.Moves.{items};
    ghost use Rattle.leduc_listing_positions.specs.internal.Spots.{placed, made, Room, undone};

    // No card dealt and no action made.
    pub fn start() -> Spot
        ensures { placed result ≡ start }
    {
        Spot {
            cards: Moves::new(),
            public: None,
            first: Moves::new(),
            second: Moves::new(),
        }
    }

    // It as the rules see it.
    pub fn hand(&self) -> Hand<'_>
        ensures cards { result.cards.now ≡ items self.now.cards }
        ensures public { result.public ≡ self.now.public }
        ensures first { result.first.now ≡ items self.now.first }
        ensures second { result.second.now ≡ items self.now.second }
    {
        Hand {
            cards: self.cards.as_slice(),
            public: self.public,
            first: self.first.as_slice(),
            second: self.second.as_slice(),
        }
    }

    // Whether its node is the first of its set: the other seat's card is the lowest that is neither the acting seat's nor the public one.
    pub fn is_first(&self) -> bool
        requires { length (items self.now.cards) ≡ 2 }
        ensures { result ≡ is_first (placed self.now) }
    {
        let hand = self.hand();
        let seat = hand.turn();
        let own = [hand.cards[seat]];
        let known = all_seen(&own, self.public);
        let lowest = nth_remaining(known.as_slice(), 0).unwrap();
        usize::from(hand.cards[1 - seat]) == lowest
    }

    // Its key: seat, card, public card or 255, and each round's length and actions.
    pub fn key(&self) -> ArrayVec<u8, KEY>
        requires dealt { length (items self.now.cards) ≡ 2 }
        requires few { length (items self.now.first) + length (items self.now.second) ≤ 8 }
        ensures { result.items ≡ key (placed self.now) }
    {
        let hand = self.hand();
        let seat = hand.turn();
        let mut key = ArrayVec::new();
        // Casts of a seat, and below of lengths of at most 11: u8::try_from would have an error that never comes.
        key.push(seat as u8);
        key.push(hand.cards[seat]);
        key.push(self.public.unwrap_or(255));
        key.push(self.first.len() as u8);
        append(&mut key, hand.first);
        key.push(self.second.len() as u8);
        append(&mut key, hand.second);
        key
    }

    // Deals a card: to a seat that has none, else it is the public card.
    pub fn deal(&mut self, card: u8) -> Made
        ensures moved { placed self.new ≡ dealt (placed self.old) card }
        ensures back { undone result (placed self.new) ≡ placed self.old }
        ensures few { (length (items self.new.cards) ≤ 2) × (made self.new ≤ made self.old + 1) }
    {
        if self.cards.len() < SEATS {
            self.cards.push(card);
            Made::Card
        } else {
            Made::Public(self.public.replace(card))
        }
    }

    // Makes an action: in round 2 once round 1 has closed.
    pub fn act(&mut self, action: u8) -> Made
        requires { Room self.old 1 }
        ensures moved { placed self.new ≡ acted (placed self.old) action }
        ensures back { undone result (placed self.new) ≡ placed self.old }
        ensures few { (length (items self.new.cards) ≤ 2) × (made self.new ≤ made self.old + 1) }
    {
        if round_over(self.first.as_slice()) {
            self.second.push(action);
            Made::Second
        } else {
            self.first.push(action);
            Made::First
        }
    }

    // Takes the last move back, by where it went.
    pub fn take_back(&mut self, made: Made)
        ensures { placed self.new ≡ undone made (placed self.old) }
    {
        match made {
            Made::Card => {
                self.cards.pop();
            }
            Made::Public(before) => self.public = before,
            Made::First => {
                self.first.pop();
            }
            Made::Second => {
                self.second.pop();
            }
        }
    }
}
