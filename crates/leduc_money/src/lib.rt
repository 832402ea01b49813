// The money of Leduc hold'em: contributions and payoffs.
#![tactic(auto)]

ghost use Rattle.std.specs.Prelude.{◌≡◌, cond, pos, neg_ℤ, ◌+◌, ◌-◌, ◌≤◌, [], ◌∷◌, length, get_or};
ghost use Rattle.leduc_betting.specs.Cards.{rank};
ghost use Rattle.leduc_rules.specs.Stakes.{ante, raise₁, raise₂};
ghost use Rattle.leduc_rules.specs.Rules.{folds, pairs, beats, wins, payoff};
ghost use Rattle.leduc_rules.specs.internal.Pots.{matched, seated, after-round, pot, BeginsLevel};

use leduc_betting::betting::has_fold;
use leduc_betting::cards::rank;
use leduc_rules::hand::Hand;
use leduc_rules::{ANTE, Pot, RAISE_ONE, RAISE_TWO};

// What the seat to act has paid after an action.
#[tactic(auto, using(leduc_betting::proofs::Branches::branches), unfolding(leduc_rules::specs::internal::Pots::matched))]
fn paid_after(pot: Pot, size: usize, action: u8) -> usize
    requires { (pot.other ≤ 64) × (size ≤ 4) }
    ensures { result ≡ matched size pot action }
{
    if action == leduc_betting::CALL {
        pot.other
    } else if action == leduc_betting::RAISE {
        pot.other + size
    } else {
        pot.acting
    }
}

// The pot with seat 0 first, n actions after the start of a round.
#[tactic(auto, using(leduc_betting::proofs::Branches::branches), unfolding(leduc_rules::specs::internal::Pots::seated))]
fn seat_zero_first(pot: Pot, n: usize) -> Pot
    ensures { result ≡ seated n pot }
{
    if n % 2 == 0 {
        pot
    } else {
        Pot {
            acting: pot.other,
            other: pot.acting,
        }
    }
}

// The pot after a round, seat 0 first.
pub fn round_pot(pot: Pot, size: usize, h: &[u8]) -> Pot
    requires { (pot.acting ≤ 32) × (pot.other ≤ 32) × (size ≤ 4) × (length h.now ≤ 4) }
    ensures { result ≡ after-round size pot h.now }
{
    let mut turn = pot;
    for a in h {
        turn = Pot {
            acting: turn.other,
            other: paid_after(turn, size, *a),
        };
    }
    seat_zero_first(turn, h.len())
}

// What both seats have paid, seat 0 first.
pub fn contributions(round1: &[u8], round2: &[u8]) -> Pot
    requires { (length round1.now ≤ 4) × (length round2.now ≤ 4) }
    ensures pot { result ≡ pot ante raise₁ raise₂ round1.now round2.now }
    ensures most { (result.acting ≤ 33) × (result.other ≤ 33) }
{
    let start = Pot {
        acting: ANTE,
        other: ANTE,
    };
    let middle = round_pot(start, RAISE_ONE, round1);
    round_pot(middle, RAISE_TWO, round2)
}

// Whether a seat has folded in a round.
#[tactic(auto, using(leduc_betting::proofs::Branches::branches, crate::proofs::Places::passed), unfolding(leduc_rules::specs::Rules::folds))]
pub fn folded_by(h: &[u8], seat: usize) -> bool
    ensures { result ≡ folds h.now seat }
{
    for (i, a) in h.iter().enumerate() {
        if i % 2 == seat && *a == leduc_betting::FOLD {
            return true;
        }
    }
    false
}

// The rank of a seat's card; of card 0 where it has none.
fn rank_of(hand: &Hand, seat: usize) -> u8
    ensures { result ≡ rank (get_or hand.now.cards.now seat 0) }
{
    rank(hand.cards.get(seat).copied().unwrap_or(0))
}

// Whether a seat's card makes a pair with the public card.
#[tactic(auto, unfolding(leduc_rules::specs::Rules::pairs))]
pub fn is_pair(hand: &Hand, seat: usize) -> bool
    ensures { result ≡ pairs hand.now.cards.now hand.now.public seat }
{
    match hand.public {
        None => false,
        Some(c) => rank_of(hand, seat) == rank(c),
    }
}

// Whether a seat beats another at the showdown.
#[tactic(auto, using(leduc_betting::proofs::Branches::branches), unfolding(leduc_rules::specs::Rules::beats))]
pub fn is_stronger(hand: &Hand, seat: usize, other: usize) -> bool
    ensures { result ≡ beats hand.now.cards.now hand.now.public seat other }
{
    !is_pair(hand, other) && (is_pair(hand, seat) || rank_of(hand, other) < rank_of(hand, seat))
}

// Whether a seat wins against the other.
#[tactic(auto, using(leduc_betting::proofs::Branches::branches), unfolding(leduc_rules::specs::Rules::wins))]
pub fn is_winner(hand: &Hand, seat: usize, other: usize) -> bool
    ensures { result ≡ wins hand.now.cards.now hand.now.public hand.now.first.now hand.now.second.now seat other }
{
    if has_fold(hand.first) || has_fold(hand.second) {
        folded_by(hand.first, other) || folded_by(hand.second, other)
    } else {
        is_stronger(hand, seat, other)
    }
}

// What a seat gains: the other's contribution if it wins; it loses its own if the other wins. Two tests, as `payoff` has them: neither need hold.
pub fn gain(wins: bool, loses: bool, mine: usize, theirs: usize) -> i64
    requires { (mine ≤ 64) × (theirs ≤ 64) }
    ensures { result ≡ cond wins (pos theirs) (cond loses (neg_ℤ (pos mine)) (pos 0)) }
{
    // Casts: no i64 comes From a usize, and what a seat has paid is at most 64.
    if wins {
        theirs as i64
    } else if loses {
        -(mine as i64)
    } else {
        0
    }
}

// What each seat gains. At a position that legal moves reach round 2 begins with equal contributions, if it has begun.
pub fn settled(hand: &Hand) -> [i64; 2]
    requires { (length hand.now.first.now ≤ 4) × (length hand.now.second.now ≤ 4) × BeginsLevel hand.now.first.now hand.now.second.now }
    ensures { result ≡ payoff ante raise₁ raise₂ hand.now.cards.now hand.now.public hand.now.first.now hand.now.second.now 0
        ∷ payoff ante raise₁ raise₂ hand.now.cards.now hand.now.public hand.now.first.now hand.now.second.now 1 ∷ [] }
{
    let pot = contributions(hand.first, hand.second);
    let first = is_winner(hand, 0, 1);
    let second = is_winner(hand, 1, 0);
    let zero = gain(first, second, pot.acting, pot.other);
    let one = gain(second, first, pot.other, pot.acting);
    [zero, one]
}
