// The f64 values of a profile, under the Rust's names: best response values, worths, NashConv and exploitability.
#![tactic(auto)]

ghost use Rattle.std.specs.Prelude.{◌≡◌, length};
ghost use Rattle.refusals.specs.Outcomes.{number_of};
ghost use Rattle.games.specs.Games.{game_of};
ghost use Rattle.tree_refusals.specs.Checks.{value-refusal, values_refusal};
ghost use Rattle.arena_store.specs.Memory.{MemoryAfter};
ghost use Rattle.f64_games.specs.Values.{best_of, bests_of, worths_of, nash_conv_of, exploitability_of};
ghost use Rattle.best_response.specs.Calls.{single, answer, answer_of};

use refusals::{Refusal, number_of};
use tree_refusals::{check_value, check_values};

// Count values, 0.0 past them. Why it is a struct of its own: Payoffs of refusals.
#[derive(Clone, Copy, Default)]
pub struct Values {
    pub count: usize,
    pub values: [f64; 6],
}

impl Values {
    // One value, in place 0.
    fn one(value: f64) -> Values
        ensures { result ≡ record { count = 1; values = single value } }
    {
        Values {
            count: 1,
            values: [value, 0.0, 0.0, 0.0, 0.0, 0.0],
        }
    }
}

// For C, a call's refusal number, 0 if it was accepted, and the values; every number but the first is 0 if it was refused.
// The refusal is its number, since a struct with an enum in it does not cross to C.
#[repr(C)]
#[derive(Clone, Copy)]
pub struct ValuesAnswer {
    pub refusal: u64,
    pub count: usize,
    pub values: [f64; 6],
}

// Written for each call's struct, since one with a type parameter does not cross to C.
impl From<Result<Values, Refusal>> for ValuesAnswer {
    ghost from_gives = { λ outcome answer. answer ≡ answer_of outcome };

    fn from(outcome: Result<Values, Refusal>) -> Self {
        let refusal = number_of(&outcome);
        let Values { count, values } = outcome.unwrap_or_default();
        ValuesAnswer {
            refusal,
            count,
            values,
        }
    }
}

// The best response value of a seat to the other seats of a profile. The tree is built at the front of the work memory, which has 12 words for each node.
#[tactic(auto, using(arena_store::proofs::Memory::front_left))]
pub fn best_response_value(
    number: usize,
    seats: usize,
    work: &mut [u64],
    seat: usize,
    profile: &[f64],
) -> Result<Values, Refusal>
    ensures answer { answer_of result ≡ answer (value-refusal (game_of number seats) (length work.old) seat (length profile.now))
        1 (single (best_of (game_of number seats) profile.now seat)) }
    ensures memory { MemoryAfter (number_of result) (game_of number seats) work.old work.new }
{
    let profile = check_value(number, seats, work.len(), seat, profile)?;
    let (words, _) = arena_store::stored_in(work, profile.tree);
    Ok(Values::one(f64_games::best_value(&profile, words, seat)))
}

// The best response value of each seat.
#[tactic(auto, using(arena_store::proofs::Memory::front_left))]
pub fn best_response_values(
    number: usize,
    seats: usize,
    work: &mut [u64],
    profile: &[f64],
) -> Result<Values, Refusal>
    ensures answer { answer_of result ≡ answer (values_refusal (game_of number seats) (length work.old) (length profile.now))
        seats (bests_of (game_of number seats) profile.now) }
    ensures memory { MemoryAfter (number_of result) (game_of number seats) work.old work.new }
{
    let profile = check_values(number, seats, work.len(), profile)?;
    let (words, _) = arena_store::stored_in(work, profile.tree);
    let values = f64_games::best_values(&profile, words);
    Ok(Values {
        count: profile.tree.game.seats(),
        values,
    })
}

// What a profile is worth to each seat.
#[tactic(auto, using(arena_store::proofs::Memory::front_left))]
pub fn profile_values(
    number: usize,
    seats: usize,
    work: &mut [u64],
    profile: &[f64],
) -> Result<Values, Refusal>
    ensures answer { answer_of result ≡ answer (values_refusal (game_of number seats) (length work.old) (length profile.now))
        seats (worths_of (game_of number seats) profile.now) }
    ensures memory { MemoryAfter (number_of result) (game_of number seats) work.old work.new }
{
    let profile = check_values(number, seats, work.len(), profile)?;
    let (words, _) = arena_store::stored_in(work, profile.tree);
    let values = f64_games::worths(&profile, words);
    let count = profile.tree.game.seats();
    Ok(Values { count, values })
}

// NashConv of a profile: the sum of best response value − worth by seat.
#[tactic(auto, using(arena_store::proofs::Memory::front_left))]
pub fn nash_conv(
    number: usize,
    seats: usize,
    work: &mut [u64],
    profile: &[f64],
) -> Result<Values, Refusal>
    ensures answer { answer_of result ≡ answer (values_refusal (game_of number seats) (length work.old) (length profile.now))
        1 (single (nash_conv_of (game_of number seats) profile.now)) }
    ensures memory { MemoryAfter (number_of result) (game_of number seats) work.old work.new }
{
    let profile = check_values(number, seats, work.len(), profile)?;
    let (words, _) = arena_store::stored_in(work, profile.tree);
    Ok(Values::one(f64_games::nash_conv(&profile, words)))
}

// Exploitability of a profile: NashConv divided by the seats.
#[tactic(auto, using(arena_store::proofs::Memory::front_left))]
pub fn exploitability(
    number: usize,
    seats: usize,
    work: &mut [u64],
    profile: &[f64],
) -> Result<Values, Refusal>
    ensures answer { answer_of result ≡ answer (values_refusal (game_of number seats) (length work.old) (length profile.now))
        1 (single (exploitability_of (game_of number seats) profile.now)) }
    ensures memory { MemoryAfter (number_of result) (game_of number seats) work.old work.new }
{
    let profile = check_values(number, seats, work.len(), profile)?;
    let (words, _) = arena_store::stored_in(work, profile.tree);
    Ok(Values::one(f64_games::exploitability(&profile, words)))
}
