// A game as a caller names it.
ghost use Rattle.std.specs.Prelude.{◌≡◌, false, ◌≤◌, ◌<◌, ltb, get_or};
ghost use Rattle.games.specs.Games.{game_of, is_kuhn, most_parts, C, m};
ghost use Rattle.games.specs.internal.Numbered.{numbered};
ghost use Rattle.games.specs.Seats.{seats-out};
ghost use Rattle.games.specs.Facts.{nodes_of, sets_of, entries_of};
ghost use Rattle.games.specs.internal.Actions.{actions_of};

use crate::Game;
use crate::seats::Seats;

// A number, 0 for Kuhn and 1 for Leduc, and a seat count, whether there is such a game or not. Whatever is not Kuhn's number counts as Leduc's.
#[derive(Clone, Copy)]
pub struct Numbers {
    pub number: usize,
    pub seats: usize,
}

impl Numbers {
    // Whether no game has the number.
    pub fn is_unknown(self) -> bool
        ensures { result ≡ ltb 1 self.number }
    {
        Game::LEDUC < self.number
    }

    // Whether the seat count is outside 2 to 10 for Kuhn, or not 2 for Leduc.
    pub fn seats_outside(self) -> bool
        ensures { result ≡ seats-out (game_of self.number self.seats) }
    {
        match (self.number, self.seats) {
            (Game::KUHN, 2..=10) => false,
            (Game::KUHN, _) => true,
            (_, seats) => seats != 2,
        }
    }

    // The most parts per set: 64, or 16 for Kuhn with more than 4 seats.
    pub fn most_parts(self) -> usize
        ensures { result ≡ most_parts (game_of self.number self.seats) }
    {
        match (self.number, self.seats) {
            (Game::KUHN, 5..) => 16,
            _ => 64,
        }
    }

    // The game that has these counts.
    fn counted_as(self) -> Game
        requires { seats-out (game_of self.number self.seats) ≡ false }
        ensures kind { is_kuhn (numbered result) ≡ is_kuhn (game_of self.number self.seats) }
        ensures seats { (numbered result).seats ≡ self.seats }
    {
        match self.number {
            Game::KUHN => Game::Kuhn(Seats { count: self.seats }),
            _ => Game::Leduc,
        }
    }

    // How many nodes the game's tree has.
    pub fn nodes(self) -> usize
        requires { seats-out (game_of self.number self.seats) ≡ false }
        ensures { result ≡ nodes_of (game_of self.number self.seats) }
    {
        self.counted_as().nodes()
    }

    // How many sets it has.
    pub fn sets(self) -> usize
        requires { seats-out (game_of self.number self.seats) ≡ false }
        ensures { result ≡ sets_of (game_of self.number self.seats) }
    {
        self.counted_as().sets()
    }

    // How many entries a table has.
    pub fn entries(self) -> usize
        requires { seats-out (game_of self.number self.seats) ≡ false }
        ensures { result ≡ entries_of (game_of self.number self.seats) }
    {
        self.counted_as().entries()
    }

    // How many actions a set has.
    pub fn actions(self, set: usize) -> usize
        requires { set < sets_of (game_of self.number self.seats) }
        ensures { (result ≡ get_or (actions_of (game_of self.number self.seats)) set 0) × (result ≤ 3) }
    {
        match self.number {
            Game::KUHN => 2,
            _ => leduc_set_actions::actions(set),
        }
    }

    // C of the units: the fans of a hand's chance nodes, multiplied.
    pub fn fans(self) -> u64
        requires { seats-out (game_of self.number self.seats) ≡ false }
        ensures { result ≡ C (game_of self.number self.seats) }
    {
        self.counted_as().fans()
    }

    // m of the units: the most actions in a hand.
    pub fn turns(self) -> usize
        requires { seats-out (game_of self.number self.seats) ≡ false }
        ensures { result ≡ m (game_of self.number self.seats) }
    {
        self.counted_as().turns()
    }
}
