// What a hand's nodes say: the words of ends and decisions. A hand is given by its cards, one for each seat.
#![tactic(auto)]

ghost use Rattle.std.specs.Prelude.{◌≡◌, cond, ◌+◌, ◌-◌, ◌*◌, ◌<◌, ◌≤◌, ltb, length, get_or};
ghost use Rattle.arena.specs.internal.Words.{decision_word, PLACES};
ghost use Rattle.kuhn_arena_layout.specs.internal.Layout.{unit_of, Top};

use arena::words::decision;

// A unit of a seat's payoff in the word of an end.
pub fn unit(seat: usize) -> u64
    requires { seat < 6 }
    ensures { (result ≡ unit_of seat) × (result ≤ 4398046511104) }
{
    4 << (8 * seat)
}

// What is at stake: the word of an end at which all seats lose what they have paid, the pot, and the seat that would win it.
#[derive(Clone, Copy)]
pub struct Money {
    pub lost: u64,
    pub pot: u64,
    pub winner: usize,
}

impl Money {
    // The word of an end: all seats lose what they have paid, and one wins the pot.
    pub fn end_word(self) -> u64
        requires { (self.lost < 1125899906842624) × (self.pot ≤ 12) × (self.winner < 6) }
        ensures { result ≡ self.lost + self.pot * unit_of self.winner }
    {
        self.lost + self.pot * unit(self.winner)
    }

    // What is at stake once a seat has bet too: it wins if its card is higher.
    pub fn with_bet(self, cards: &[u8], seat: usize) -> Money
        requires seats { (seat < length cards.now) × (self.winner < length cards.now) × (length cards.now ≤ 6) }
        requires paid { (unit_of seat ≤ self.lost) × (self.pot ≤ 12) }
        ensures lost { result.lost ≡ self.lost - unit_of seat }
        ensures pot { result.pot ≡ self.pot + 1 }
        ensures winner { result.winner ≡ cond (ltb (get_or cards.now self.winner 0) (get_or cards.now seat 0)) seat self.winner }
    {
        Money {
            lost: self.lost - unit(seat),
            pot: self.pot + 1,
            winner: higher(cards, self.winner, seat),
        }
    }
}

// The word of the decision of a seat, of a history with the given number. Of next it asks what the makers of words ask of a place.
pub fn decision_word(cards: &[u8], number: usize, seat: usize, next: usize) -> u64
    requires { (length cards.now ≤ 6) × (number ≤ 2046) × (seat < length cards.now) × (next < PLACES) }
    ensures word { result ≡ decision_word seat 2 (number * (length cards.now + 1) + get_or cards.now seat 0) next 0 }
    ensures byte { get_or cards.now seat 0 < 256 }
{
    let set = number * (cards.len() + 1) + usize::from(cards[seat]);
    decision(seat, 2, set, next, 0)
}

// Of two seats the one with the higher card, the first if they are equal.
fn higher(cards: &[u8], first: usize, second: usize) -> usize
    requires { (first < length cards.now) × (second < length cards.now) }
    ensures { result ≡ cond (ltb (get_or cards.now first 0) (get_or cards.now second 0)) second first }
{
    if cards[first] < cards[second] {
        second
    } else {
        first
    }
}

// The seat with the highest card.
pub fn highest(cards: &[u8]) -> usize
    requires { 1 ≤ length cards.now }
    ensures { Top (length cards.now) cards.now result }
{
    let mut top = 0;
    for seat in 1..cards.len() {
        top = higher(cards, top, seat);
    }
    top
}
