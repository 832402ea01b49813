// The checks of a saved position's cards and histories, in the order of their numbers.
ghost use Rattle.std.specs.Prelude.{◌≡◌, not, ◌≤◌, take, IfOk};
ghost use Rattle.refusals.specs.Refusals.{first};
ghost use Rattle.refusals.specs.Outcomes.{number_of};
ghost use Rattle.prelude.specs.Finite.{◌and◌};
ghost use Rattle.leduc_betting.specs.Betting.{closes, ended};
ghost use Rattle.leduc_betting.specs.Checks.{barred_by, card_checks, round_checks, public_checks};

use leduc_betting::betting::{check_round, has_fold, is_terminal, round_over, unknown_action};
use leduc_betting::cards::{card_outside, card_twice};
use refusals::Refusal;

// Numbers 11 and 12: a card is not in the deck, a card appears twice.
pub fn check_cards(seen: &[u8]) -> Result<(), Refusal>
    ensures { number_of result ≡ first (card_checks seen.now) }
{
    if card_outside(seen) {
        return Err(Refusal::Card);
    }
    if card_twice(seen) {
        return Err(Refusal::CardTwice);
    }
    Ok(())
}

// The actions of a round, from its part of the history and how many there are, by numbers 13 to 15; a part that has not so many is taken whole.
pub fn check_history(part: &[u8], acted: usize, barred: bool, blind: bool) -> Result<&[u8], Refusal>
    ensures number { number_of result ≡ first (round_checks barred blind acted (take acted part.now)) }
    ensures actions { IfOk result (λ h. (acted ≤ 4) × (h.now ≡ take acted part.now)) }
{
    if crate::ROUND < acted {
        return Err(Refusal::History);
    }
    let h = part.get(..acted).unwrap_or(part);
    if unknown_action(h) {
        return Err(Refusal::History);
    }
    check_round(h, barred, blind)?;
    Ok(h)
}

// Whether no action may stand in round 2.
#[tactic(auto, using(leduc_betting::proofs::Branches::branches), unfolding(leduc_betting::specs::Checks::barred_by))]
pub fn is_barred(round1: &[u8]) -> bool
    ensures { result ≡ barred_by round1.now }
{
    has_fold(round1) || !round_over(round1)
}

// Numbers 16 and 17: a live second round without the public card, a public card before round 1 closed.
#[tactic(auto, using(leduc_betting::proofs::Branches::branches))]
pub fn check_public(round1: &[u8], round2: &[u8], blind: bool) -> Result<(), Refusal>
    ensures { number_of result ≡ first (public_checks blind round1.now round2.now) }
{
    if blind && is_waiting(round1, round2) {
        return Err(Refusal::NoPublic);
    }
    if !blind && !round_over(round1) {
        return Err(Refusal::EarlyPublic);
    }
    Ok(())
}

// Whether round 1 has closed in a hand that has not ended.
#[tactic(auto, using(leduc_betting::proofs::Branches::branches))]
fn is_waiting(round1: &[u8], round2: &[u8]) -> bool
    ensures { result ≡ (closes round1.now and not (ended round1.now round2.now)) }
{
    round_over(round1) && !is_terminal(round1, round2)
}
