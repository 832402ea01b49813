// The f64 values for C: the game's number and the seat count, then what the call of the crate takes.
// Numbers go in by `as` in each call: std has no From for u64 to usize, and a TryFrom would answer an error that cannot come.
ghost use Rattle.std.specs.Prelude.{◌≡◌, length};
ghost use Rattle.games.specs.Games.{game_of};
ghost use Rattle.tree_refusals.specs.Checks.{value-refusal, values_refusal};
ghost use Rattle.arena_store.specs.Memory.{MemoryAfter};
ghost use Rattle.f64_games.specs.Values.{best_of, bests_of, worths_of, nash_conv_of, exploitability_of};
ghost use Rattle.best_response.specs.Calls as Response;

use best_response::ValuesAnswer;

// The best response value of a seat to the other seats of a profile.
#[unsafe(no_mangle)]
pub extern "C" fn chukkanalli_best_response_value(
    game: u64,
    seats: u64,
    work: &mut [u64],
    seat: u64,
    profile: &[f64],
) -> ValuesAnswer
    ensures answer { result ≡ Response.answer (value-refusal (game_of game seats) (length work.old) seat (length profile.now))
        1 (Response.single (best_of (game_of game seats) profile.now seat)) }
    ensures memory { MemoryAfter result.refusal (game_of game seats) work.old work.new }
{
    best_response::best_response_value(
        game as usize,
        seats as usize,
        work,
        seat as usize,
        profile,
    ).into()
}

// The best response value of each seat.
#[unsafe(no_mangle)]
pub extern "C" fn chukkanalli_best_response_values(
    game: u64,
    seats: u64,
    work: &mut [u64],
    profile: &[f64],
) -> ValuesAnswer
    ensures answer { result ≡ Response.answer (values_refusal (game_of game seats) (length work.old) (length profile.now))
        seats (bests_of (game_of game seats) profile.now) }
    ensures memory { MemoryAfter result.refusal (game_of game seats) work.old work.new }
{
    best_response::best_response_values(game as usize, seats as usize, work, profile).into()
}

// What a profile is worth to each seat.
#[unsafe(no_mangle)]
pub extern "C" fn chukkanalli_profile_values(
    game: u64,
    seats: u64,
    work: &mut [u64],
    profile: &[f64],
) -> ValuesAnswer
    ensures answer { result ≡ Response.answer (values_refusal (game_of game seats) (length work.old) (length profile.now))
        seats (worths_of (game_of game seats) profile.now) }
    ensures memory { MemoryAfter result.refusal (game_of game seats) work.old work.new }
{
    best_response::profile_values(game as usize, seats as usize, work, profile).into()
}

// NashConv: the sum of best response value − worth by seat.
#[unsafe(no_mangle)]
pub extern "C" fn chukkanalli_nash_conv(
    game: u64,
    seats: u64,
    work: &mut [u64],
    profile: &[f64],
) -> ValuesAnswer
    ensures answer { result ≡ Response.answer (values_refusal (game_of game seats) (length work.old) (length profile.now))
        1 (Response.single (nash_conv_of (game_of game seats) profile.now)) }
    ensures memory { MemoryAfter result.refusal (game_of game seats) work.old work.new }
{
    best_response::nash_conv(game as usize, seats as usize, work, profile).into()
}

// Exploitability: NashConv divided by the seats.
#[unsafe(no_mangle)]
pub extern "C" fn chukkanalli_exploitability(
    game: u64,
    seats: u64,
    work: &mut [u64],
    profile: &[f64],
) -> ValuesAnswer
    ensures answer { result ≡ Response.answer (values_refusal (game_of game seats) (length work.old) (length profile.now))
        1 (Response.single (exploitability_of (game_of game seats) profile.now)) }
    ensures memory { MemoryAfter result.refusal (game_of game seats) work.old work.new }
{
    best_response::exploitability(game as usize, seats as usize, work, profile).into()
}
