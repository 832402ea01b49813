// The cards: 0 to n, one for each of n seats.
#![tactic(auto)]

ghost use Rattle.std.specs.Prelude.{◌≡◌, ◌≤◌, ◌<◌, length, get_or, IfSome, IfNone, OnSome};
ghost use Rattle.kuhn_rules.specs.Rules.{remaining};
ghost use Rattle.kuhn_rules.specs.Reached.{strange, twice};

// Whether a card is not in the deck.
#[tactic(auto, using(kuhn_rules::proofs::Deals::strange_any))]
pub fn card_outside(cards: &[u8], n: usize) -> bool
    ensures { result ≡ strange n cards.now }
{
    prelude::any_above(cards, n)
}

// Whether a card appears twice.
#[tactic(auto, unfolding(kuhn_rules::specs::Reached::twice))]
pub fn card_twice(cards: &[u8]) -> bool
    ensures { result ≡ twice cards.now }
{
    prelude::repeats(cards)
}

// The card of an outcome among those left, ascending; none where there are not so many.
#[tactic(auto, using(kuhn_rules::proofs::Deals::card_place, kuhn_rules::proofs::Deals::card_is, kuhn_rules::proofs::Deals::card_none))]
pub fn nth_remaining(cards: &[u8], n: usize, outcome: usize) -> Option<usize>
    requires { n ≤ 10 }
    ensures place { OnSome result (outcome < length (remaining n cards.now)) }
    ensures card { IfSome result (λ card. (card ≡ get_or (remaining n cards.now) outcome 0) × (card ≤ n)) }
    ensures none { IfNone result (length (remaining n cards.now) ≤ outcome) }
{
    prelude::nth_left(cards, n + 1, outcome)
}
