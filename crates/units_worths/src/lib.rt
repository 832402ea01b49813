// Whole units of a game: the units of its tree's root, and what a table is worth.
#![tactic(auto)]

pub mod worths;

ghost use Rattle.std.specs.Prelude.{◌≡◌, ◌≤◌, ◌<◌};
ghost use Rattle.games.specs.Games.{most_parts, root_units};
ghost use Rattle.games.specs.internal.Numbered.{numbered};
ghost use Rattle.units.specs.internal.Readable.{UNITS};

use games::tree::GameTree;
use tree_refusals::accepted::GameTable;
use units::shares::Table;

// The units of the root of a game with d parts in each set: C × D^m, which is below 2^57.
pub fn root_units(tree: GameTree, d: usize) -> u64
    requires { (1 ≤ d) × (d ≤ most_parts (numbered tree.game)) }
    ensures { (result ≡ root_units (numbered tree.game) d) × (result < UNITS) }
{
    // `as`: u64 has no From of usize; at most 12 turns, and try_from would have a failure that never comes.
    tree.game.fans() * (d as u64).pow(tree.game.turns() as u32)
}

// What the walks in whole units take of a table.
pub fn shares_of<'a>(table: &GameTable<'a>) -> Table<'a>
    ensures { (result.entries ≡ table.now.entries) × (result.parts ≡ table.now.parts) }
{
    Table {
        entries: table.entries,
        parts: table.parts,
    }
}
