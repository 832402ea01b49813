// The betting: what depends on the histories alone. A history is the part of the array that holds one round.
ghost use Rattle.std.specs.Prelude.{◌≡◌, [], ◌∷◌};
ghost use Rattle.refusals.specs.Refusals.{first};
ghost use Rattle.refusals.specs.Outcomes.{number_of};
ghost use Rattle.leduc_betting.specs.Betting.{ends_with, folded, closes, open_round, raises, may, counted, ended, unknown, options};
ghost use Rattle.leduc_betting.specs.Checks.{action_checks};

use refusals::Refusal;

// Whether the round's last action is a.
pub fn last_is(h: &[u8], a: u8) -> bool
    ensures { result ≡ ends_with a h.now }
{
    h.last() == Some(&a)
}

// Whether a seat has folded.
pub fn has_fold(h: &[u8]) -> bool
    ensures { result ≡ folded h.now }
{
    prelude::contains(h, usize::from(crate::FOLD))
}

// Whether the round has closed: at a CALL that is its second or later action.
#[tactic(auto, using(crate::proofs::Branches::branches), unfolding(crate::specs::Betting::closes))]
pub fn round_over(h: &[u8]) -> bool
    ensures { result ≡ closes h.now }
{
    2 <= h.len() && last_is(h, crate::CALL)
}

// Whether the round goes on.
#[tactic(auto, using(crate::proofs::Branches::branches), unfolding(crate::specs::Betting::open_round))]
pub fn is_open(h: &[u8]) -> bool
    ensures { result ≡ open_round h.now }
{
    !has_fold(h) && !round_over(h)
}

// How often the round was raised.
#[tactic(auto, unfolding(crate::specs::Betting::raises))]
pub fn raise_count(h: &[u8]) -> usize
    ensures { result ≡ raises h.now }
{
    h.iter().filter(|a| **a == crate::RAISE).count()
}

// Whether an action is legal in a round that goes on.
#[tactic(auto, using(crate::proofs::Made::made))]
pub fn is_legal(h: &[u8], a: usize) -> bool
    ensures { result ≡ may h.now a }
{
    if a == usize::from(crate::FOLD) {
        last_is(h, crate::RAISE)
    } else if a == usize::from(crate::RAISE) {
        raise_count(h) < crate::RAISES
    } else {
        a == usize::from(crate::CALL)
    }
}

// The legal actions in a round that goes on, in ascending order.
#[tactic(auto, using(crate::proofs::Made::listed))]
pub fn options_of(h: &[u8]) -> &'static [u8]
    ensures { result.now ≡ options h.now }
{
    match (last_is(h, crate::RAISE), raise_count(h) < crate::RAISES) {
        (true, true) => &[crate::FOLD, crate::CALL, crate::RAISE],
        (true, false) => &[crate::FOLD, crate::CALL],
        (false, true) => &[crate::CALL, crate::RAISE],
        (false, false) => &[crate::CALL],
    }
}

// What a step makes of an action: an illegal one becomes FOLD if that is legal, else CALL.
#[tactic(auto, using(crate::proofs::Made::made), unfolding(crate::specs::Betting::counted))]
pub fn action_made(h: &[u8], a: usize) -> u8
    ensures { result ≡ counted h.now a }
{
    if is_legal(h, a) {
        // A cast, since a legal action is at most 2: the error of u8::try_from would never come.
        a as u8
    } else if is_legal(h, usize::from(crate::FOLD)) {
        crate::FOLD
    } else {
        crate::CALL
    }
}

// Whether an action is none of FOLD, CALL and RAISE.
pub fn unknown_action(h: &[u8]) -> bool
    ensures { result ≡ unknown h.now }
{
    prelude::any_above(h, usize::from(crate::RAISE))
}

// Refuses a round's first action that stands after the round closed, or was not legal when made. Barred: no action may stand in the round; blind: none is
// legal there, for lack of the public card. These stay two tests: a caller has each from another place, and most pass false twice.
pub fn check_round(h: &[u8], barred: bool, blind: bool) -> Result<(), Refusal>
    ensures { number_of result ≡ first (action_checks barred blind [] h.now) }
{
    for (i, a) in h.iter().enumerate() {
        check_action(&h[..i], usize::from(*a), barred, blind)?;
    }
    Ok(())
}

// Refuses one action, after those made before it.
#[tactic(auto, using(crate::proofs::Branches::branches), unfolding(crate::specs::Checks::action_checks))]
fn check_action(before: &[u8], a: usize, barred: bool, blind: bool) -> Result<(), Refusal>
    ensures { number_of result ≡ first (action_checks barred blind before.now (a ∷ [])) }
{
    if barred || !is_open(before) {
        return Err(Refusal::Closed);
    }
    if blind || !is_legal(before, a) {
        return Err(Refusal::Illegal);
    }
    Ok(())
}

// Whether the hand has ended: a seat has folded, or round 2 has closed.
#[tactic(auto, using(crate::proofs::Branches::branches), unfolding(crate::specs::Betting::ended))]
pub fn is_terminal(round1: &[u8], round2: &[u8]) -> bool
    ensures { result ≡ ended round1.now round2.now }
{
    has_fold(round1) || (has_fold(round2) || round_over(round2))
}
