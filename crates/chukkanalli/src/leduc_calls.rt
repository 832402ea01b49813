// Leduc's calls for C: what the call of crate leduc takes.
// Numbers go in by `as` in each call: std has no From for u64 to usize, and a TryFrom would answer an error that cannot come.
ghost use Rattle.std.specs.Prelude.{◌≡◌, length};
ghost use Rattle.refusals.specs.Outcomes.{written};
ghost use Rattle.leduc_positions.specs.Positions.{legal_of};
ghost use Rattle.leduc.specs.Calls.{started, dealt, stepped, listed, key_of, keyed, paid, checked};
ghost use Rattle.c_structs.specs.Leduc.{state_of, moved_of, written_of, payoffs_of};

use c_structs::of_leduc::{LeducMoved, LeducPayoffs, LeducPosition, LeducWritten};
use leduc::{LeducPoker, LeducState};

// Start.
#[unsafe(no_mangle)]
pub extern "C" fn chukkanalli_leduc_initial_state() -> LeducMoved
    ensures { result ≡ moved_of started }
{
    let state = LeducPoker::initial_state();
    LeducMoved::of(state, Ok(state))
}

// Legal list.
#[unsafe(no_mangle)]
pub extern "C" fn chukkanalli_leduc_legal_actions(
    position: LeducPosition,
    seat: u64,
    out: &mut [u8],
) -> LeducWritten
    ensures answer { result ≡ written_of (listed (state_of position) seat (length out.old)) }
    ensures output { out.new ≡ written result.refusal (legal_of (state_of position) seat) out.old }
{
    let state = LeducState::from(position);
    let answer = LeducPoker::legal_actions(state, seat as usize, out);
    LeducWritten::of(state, answer)
}

// Deal.
#[unsafe(no_mangle)]
pub extern "C" fn chukkanalli_leduc_apply_chance_node(
    position: LeducPosition,
    outcome: u64,
) -> LeducMoved
    ensures { result ≡ moved_of (dealt (state_of position) outcome) }
{
    let state = LeducState::from(position);
    let answer = LeducPoker::apply_chance_node(state, outcome as usize);
    LeducMoved::of(state, answer)
}

// Step.
#[unsafe(no_mangle)]
pub extern "C" fn chukkanalli_leduc_step(position: LeducPosition, action: u64) -> LeducMoved
    ensures { result ≡ moved_of (stepped (state_of position) action) }
{
    let state = LeducState::from(position);
    let answer = LeducPoker::step(state, action as usize);
    LeducMoved::of(state, answer)
}

// Key.
#[unsafe(no_mangle)]
pub extern "C" fn chukkanalli_leduc_information_state_key(
    position: LeducPosition,
    seat: u64,
    out: &mut [u8],
) -> LeducWritten
    ensures answer { result ≡ written_of (keyed (state_of position) seat (length out.old)) }
    ensures output { out.new ≡ written result.refusal (key_of (state_of position) seat) out.old }
{
    let state = LeducState::from(position);
    let answer = LeducPoker::information_state_key(state, seat as usize, out);
    LeducWritten::of(state, answer)
}

// Payoff.
#[unsafe(no_mangle)]
pub extern "C" fn chukkanalli_leduc_payouts(position: LeducPosition) -> LeducPayoffs
    ensures { result ≡ payoffs_of (paid (state_of position)) }
{
    let state = LeducState::from(position);
    let answer = LeducPoker::payouts(state);
    LeducPayoffs::of(state, answer)
}

// Saved position.
#[unsafe(no_mangle)]
pub extern "C" fn chukkanalli_leduc_validate_decoded_state(
    position: LeducPosition,
    done: u64,
) -> LeducMoved
    ensures { result ≡ moved_of (checked (state_of position) done) }
{
    let state = LeducState::from(position);
    let answer = LeducPoker::validate_decoded_state(state, done);
    LeducMoved::of(state, answer.and(Ok(state)))
}
