// The checks 5 and 6 of a game as a caller names it, whether there is such a game or not.
ghost use Rattle.std.specs.Prelude.{[], ◌∷◌, ◌≤◌, ◌<◌};
ghost use Rattle.refusals.specs.Outcomes.{number_of};
ghost use Rattle.refusals.specs.internal.Settled.{Settled};
ghost use Rattle.games.specs.Games.{game_of, most_parts};
ghost use Rattle.tree_refusals.specs.Checks.{seat_check, parts_check};

use games::numbers::Numbers;
use refusals::Refusal;

// 5: a seat.
pub fn check_seat(game: Numbers, seat: usize) -> Result<(), Refusal>
    ensures { Settled (seat_check (game_of game.number game.seats) seat ∷ []) (seat < game.seats) (number_of result) }
{
    if game.seats <= seat {
        return Err(Refusal::Seat);
    }
    Ok(())
}

// 6: D, the parts per set.
pub fn check_parts(game: Numbers, d: usize) -> Result<(), Refusal>
    ensures { Settled (parts_check (game_of game.number game.seats) d ∷ [])
        ((1 ≤ d) × (d ≤ most_parts (game_of game.number game.seats))) (number_of result) }
{
    if d == 0 || game.most_parts() < d {
        return Err(Refusal::Parts);
    }
    Ok(())
}
