// Kuhn's calls for C: the seat count first, then what the call of crate kuhn takes.
// Numbers go in by `as` in each call: std has no From for u64 to usize, and a TryFrom would answer an error that cannot come.
ghost use Rattle.std.specs.Prelude.{◌≡◌, length};
ghost use Rattle.refusals.specs.Outcomes.{written};
ghost use Rattle.kuhn.specs.Calls.{start_refusal, started, dealt, stepped, listed, legal_of, keyed, key_of, paid, checked};
ghost use Rattle.c_structs.specs.Kuhn.{game_of, state_of, moved_of, written_of, payoffs_of};

use c_structs::of_kuhn::{KuhnMoved, KuhnPayoffs, KuhnPosition, KuhnWritten};
use kuhn::{KuhnPoker, KuhnState};

// The game of a seat count.
fn game_of(seats: u64) -> KuhnPoker
    ensures { result ≡ game_of seats }
{
    KuhnPoker {
        players: seats as usize,
    }
}

// Refuses a seat count outside 2 to 10. C's interface has the refusal's number alone, since an enum does not cross.
#[unsafe(no_mangle)]
pub extern "C" fn chukkanalli_kuhn_validate(seats: u64) -> u64
    ensures { result ≡ start_refusal (game_of seats) }
{
    refusals::number_of(&game_of(seats).validate())
}

// Start.
#[unsafe(no_mangle)]
pub extern "C" fn chukkanalli_kuhn_initial_state(seats: u64) -> KuhnMoved
    ensures { result ≡ moved_of (started (game_of seats)) }
{
    KuhnMoved::of(KuhnState::new(), game_of(seats).initial_state())
}

// Legal list.
#[unsafe(no_mangle)]
pub extern "C" fn chukkanalli_kuhn_legal_actions(
    seats: u64,
    position: KuhnPosition,
    seat: u64,
    out: &mut [u8],
) -> KuhnWritten
    ensures answer { result ≡ written_of (listed (game_of seats) (state_of position) seat (length out.old)) }
    ensures output { out.new ≡ written result.refusal (legal_of (game_of seats) (state_of position) seat) out.old }
{
    let state = KuhnState::from(position);
    let answer = game_of(seats).legal_actions(state, seat as usize, out);
    KuhnWritten::of(state, answer)
}

// Deal.
#[unsafe(no_mangle)]
pub extern "C" fn chukkanalli_kuhn_apply_chance_node(
    seats: u64,
    position: KuhnPosition,
    outcome: u64,
) -> KuhnMoved
    ensures { result ≡ moved_of (dealt (game_of seats) (state_of position) outcome) }
{
    let state = KuhnState::from(position);
    let answer = game_of(seats).apply_chance_node(state, outcome as usize);
    KuhnMoved::of(state, answer)
}

// Step.
#[unsafe(no_mangle)]
pub extern "C" fn chukkanalli_kuhn_step(
    seats: u64,
    position: KuhnPosition,
    action: u64,
) -> KuhnMoved
    ensures { result ≡ moved_of (stepped (game_of seats) (state_of position) action) }
{
    let state = KuhnState::from(position);
    let answer = game_of(seats).step(state, action as usize);
    KuhnMoved::of(state, answer)
}

// Key.
#[unsafe(no_mangle)]
pub extern "C" fn chukkanalli_kuhn_information_state_key(
    seats: u64,
    position: KuhnPosition,
    seat: u64,
    out: &mut [u8],
) -> KuhnWritten
    ensures answer { result ≡ written_of (keyed (game_of seats) (state_of position) seat (length out.old)) }
    ensures output { out.new ≡ written result.refusal (key_of (state_of position) seat) out.old }
{
    let state = KuhnState::from(position);
    let answer = game_of(seats).information_state_key(state, seat as usize, out);
    KuhnWritten::of(state, answer)
}

// Payoff.
#[unsafe(no_mangle)]
pub extern "C" fn chukkanalli_kuhn_payouts(seats: u64, position: KuhnPosition) -> KuhnPayoffs
    ensures { result ≡ payoffs_of (paid (game_of seats) (state_of position)) }
{
    let state = KuhnState::from(position);
    let answer = game_of(seats).payouts(state);
    KuhnPayoffs::of(state, answer)
}

// Saved position.
#[unsafe(no_mangle)]
pub extern "C" fn chukkanalli_kuhn_validate_decoded_state(
    seats: u64,
    position: KuhnPosition,
    done: u64,
) -> KuhnMoved
    ensures { result ≡ moved_of (checked (game_of seats) (state_of position) done) }
{
    let state = KuhnState::from(position);
    let answer = game_of(seats).validate_decoded_state(state, done);
    KuhnMoved::of(state, answer.and(Ok(state)))
}
