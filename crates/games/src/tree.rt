// The games that have a tree.
ghost use Rattle.games.specs.internal.Numbered.{numbered};
ghost use Rattle.games.specs.Known.{Known};

use crate::Game;

// A game whose tree is built and walked: one that numbers 1 to 3 let through.
#[derive(Clone, Copy)]
pub struct GameTree {
    pub game: Game,
    pub ghost known: { Known (numbered game) },
}
