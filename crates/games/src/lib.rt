// The games, and what is counted of their trees.
#![tactic(auto)]

pub mod numbers;
pub mod seats;
pub mod tree;

ghost use Rattle.std.specs.Prelude.{◌≡◌, [], ◌∷◌, ◌≤◌, ◌<◌, IfOk, get_or};
ghost use Rattle.refusals.specs.Outcomes.{number_of};
ghost use Rattle.refusals.specs.Refusals.{first};
ghost use Rattle.games.specs.Games.{game_of, most_parts, C, m};
ghost use Rattle.games.specs.internal.Numbered.{numbered};
ghost use Rattle.games.specs.Checks.{game_check, seats_check};
ghost use Rattle.games.specs.Facts.{nodes_of, sets_of, entries_of};
ghost use Rattle.games.specs.internal.Actions.{actions_of};

use crate::numbers::Numbers;
use crate::seats::Seats;
use refusals::Refusal;

// A game with its seats.
#[derive(Clone, Copy)]
pub enum Game {
    Kuhn(Seats),
    Leduc,
}

// The nodes, sets and entries of a game's tree, and of its units C, the fans of a hand's chance nodes multiplied, and m, the most actions in a hand.
#[derive(Clone, Copy)]
struct Measures {
    nodes: usize,
    sets: usize,
    entries: usize,
    fans: u64,
    turns: usize,
}

// Those of Kuhn, from 2 seats to 10.
const KUHN: [Measures; 9] = [
    Measures {
        nodes: 58,
        sets: 12,
        entries: 24,
        fans: 6,
        turns: 3,
    },
    Measures {
        nodes: 617,
        sets: 48,
        entries: 96,
        fans: 24,
        turns: 5,
    },
    Measures {
        nodes: 7886,
        sets: 160,
        entries: 320,
        fans: 120,
        turns: 7,
    },
    Measures {
        nodes: 116437,
        sets: 480,
        entries: 960,
        fans: 720,
        turns: 9,
    },
    Measures {
        nodes: 1944020,
        sets: 1344,
        entries: 2688,
        fans: 5040,
        turns: 11,
    },
    Measures {
        nodes: 36196001,
        sets: 3584,
        entries: 7168,
        fans: 40320,
        turns: 13,
    },
    Measures {
        nodes: 743801770,
        sets: 9216,
        entries: 18432,
        fans: 362880,
        turns: 15,
    },
    Measures {
        nodes: 16727745701,
        sets: 23040,
        entries: 46080,
        fans: 3628800,
        turns: 17,
    },
    Measures {
        nodes: 408816620312,
        sets: 56320,
        entries: 112640,
        fans: 39916800,
        turns: 19,
    },
];

const LEDUC: Measures = Measures {
    nodes: 9457,
    sets: 936,
    entries: 2184,
    fans: 120,
    turns: 8,
};

impl Game {
    // The games' numbers. They stay numbers, since a caller of C names a game by one.
    pub const KUHN: usize = 0;

    pub const LEDUC: usize = 1;

    // The words of work memory that a node takes.
    pub const WORDS: usize = 12;

    // The game of a number and a seat count: number 1 where no game has the number, number 2 where it has not so many seats.
    pub fn by_number(number: usize, seats: usize) -> Result<Game, Refusal>
        ensures refused { number_of result ≡ first (game_check (game_of number seats) ∷ seats_check (game_of number seats) ∷ []) }
        ensures made { IfOk result (λ game. numbered game ≡ game_of number seats) }
    {
        match (number, seats) {
            (Self::KUHN, 2..=10) => Ok(Game::Kuhn(Seats { count: seats })),
            (Self::LEDUC, 2) => Ok(Game::Leduc),
            (Self::KUHN | Self::LEDUC, _) => Err(Refusal::Seats),
            _ => Err(Refusal::Game),
        }
    }

    // Its number and its seats.
    pub fn numbers(self) -> Numbers
        ensures { game_of result.number result.seats ≡ numbered self }
    {
        Numbers {
            number: match self {
                Game::Kuhn(_) => Self::KUHN,
                Game::Leduc => Self::LEDUC,
            },
            seats: self.seats(),
        }
    }

    // How many seats play.
    pub fn seats(self) -> usize
        ensures { result ≡ (numbered self).seats }
    {
        match self {
            Game::Kuhn(seats) => seats.count,
            Game::Leduc => 2,
        }
    }

    // The most parts per set: 64, or 16 for Kuhn with more than 4 seats.
    pub fn most_parts(self) -> usize
        ensures { result ≡ most_parts (numbered self) }
    {
        match self {
            Game::Kuhn(seats) if 4 < seats.count => 16,
            _ => 64,
        }
    }

    fn measures(self) -> Measures
        ensures nodes { result.nodes ≡ nodes_of (numbered self) }
        ensures sets { result.sets ≡ sets_of (numbered self) }
        ensures entries { result.entries ≡ entries_of (numbered self) }
        ensures fans { result.fans ≡ C (numbered self) }
        ensures turns { result.turns ≡ m (numbered self) }
    {
        match self {
            Game::Kuhn(seats) => KUHN[seats.count - 2],
            Game::Leduc => LEDUC,
        }
    }

    // How many nodes the game's tree has.
    pub fn nodes(self) -> usize
        ensures { result ≡ nodes_of (numbered self) }
    {
        self.measures().nodes
    }

    // How many sets it has.
    pub fn sets(self) -> usize
        ensures { result ≡ sets_of (numbered self) }
    {
        self.measures().sets
    }

    // How many entries a table has.
    pub fn entries(self) -> usize
        ensures { result ≡ entries_of (numbered self) }
    {
        self.measures().entries
    }

    // How many actions a set has.
    pub fn actions(self, set: usize) -> usize
        requires { set < sets_of (numbered self) }
        ensures { (result ≡ get_or (actions_of (numbered self)) set 0) × (result ≤ 3) }
    {
        match self {
            Game::Kuhn(_) => 2,
            Game::Leduc => leduc_set_actions::actions(set),
        }
    }

    // C of the units: the fans of a hand's chance nodes, multiplied.
    pub fn fans(self) -> u64
        ensures { result ≡ C (numbered self) }
    {
        self.measures().fans
    }

    // m of the units: the most actions in a hand.
    pub fn turns(self) -> usize
        ensures { result ≡ m (numbered self) }
    {
        self.measures().turns
    }
}
