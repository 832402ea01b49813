// The cards: 0 to 5, two of each rank.
ghost use Rattle.std.specs.Prelude.{◌≡◌, ◌≤◌, length};
ghost use Rattle.prelude.specs.internal.Places.{at_place};
ghost use Rattle.leduc_betting.specs.Cards.{rank, remaining, seen, strange, twice};

use arrayvec::ArrayVec;

// The cards dealt: the seats' and the public one. The seats' are pushed one by one: as a slice, of a length that isn't known when this is compiled, two bytes
// at most would be copied by a call of memmove.
pub fn all_seen(cards: &[u8], public: Option<u8>) -> ArrayVec<u8, 3>
    requires { length cards.now ≤ 2 }
    ensures { result.items ≡ seen cards.now public }
{
    let mut seen = ArrayVec::new();
    if let Some(c) = cards.first() {
        seen.push(*c);
    }
    if let Some(c) = cards.get(1) {
        seen.push(*c);
    }
    if let Some(c) = public {
        seen.push(c);
    }
    seen
}

// Whether a card is not in the deck.
pub fn card_outside(cards: &[u8]) -> bool
    ensures { result ≡ strange cards.now }
{
    prelude::any_above(cards, usize::from(crate::DECK) - 1)
}

// Whether a card appears twice.
#[tactic(auto, unfolding(crate::specs::Cards::twice))]
pub fn card_twice(cards: &[u8]) -> bool
    ensures { result ≡ twice cards.now }
{
    prelude::repeats(cards)
}

// The card of an outcome among those left, ascending; none where there are not so many.
pub fn nth_remaining(cards: &[u8], outcome: usize) -> Option<usize>
    ensures { result ≡ at_place (remaining cards.now) outcome }
{
    prelude::nth_left(cards, usize::from(crate::DECK), outcome)
}

// The rank of a card.
pub fn rank(card: u8) -> u8
    ensures { result ≡ rank card }
{
    card / 2
}
