// What the checks have let through.
ghost use Rattle.games.specs.internal.Numbered.{numbered};
ghost use Rattle.tree_refusals.specs.Accepted.{AcceptedTable};
ghost use Rattle.tree_refusals.specs.internal.Accepted.{AcceptedProfile};

use games::tree::GameTree;

// A table of a game, with so many parts in each set.
#[derive(Clone, Copy)]
pub struct GameTable<'a> {
    pub tree: GameTree,
    pub parts: usize,
    pub entries: &'a [u8],
    pub ghost accepted: { AcceptedTable (numbered tree.game) parts entries.now },
}

// A profile of a game.
#[derive(Clone, Copy)]
pub struct GameProfile<'a> {
    pub tree: GameTree,
    pub entries: &'a [f64],
    pub ghost accepted: { AcceptedProfile (numbered tree.game) entries.now },
}
