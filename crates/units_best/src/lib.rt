// The best value of a seat against a table, and the reply behind it, where the game's tree is stored. Behind the tree's index stand the units of each node, and
// behind these the choices.
#![tactic(auto)]

ghost use Rattle.std.specs.Prelude.{◌≡◌, ◌*◌, ◌≤◌, ◌<◌, length};
ghost use Rattle.std.proofs.lemmas.List.Edits.{sets};
ghost use Rattle.game_tree.specs.Table.{table_best, reply_table};
ghost use Rattle.games.specs.Games.{tree_of, root_units};
ghost use Rattle.games.specs.internal.Numbered.{numbered};
ghost use Rattle.arena_store.specs.internal.Stored.{Stored, Ready};
ghost use Rattle.units_best.specs.internal.Best.{Unbeaten};
ghost use Rattle.units_best.specs.Best.{BestReply};
ghost use Rattle.units_best.specs.internal.Staged.{Staged};

use arena::words::clear;
use arena_store::search_of;
use arena_walks::DEPTH;
use tree_refusals::accepted::GameTable;
use units_collect::collect;
use units_reply::write_reply;
use units_values::values::value;
use units_worths::worths::lowered;
use units_worths::{root_units, shares_of};

// The best value of a seat against a table. That the game has the seat is a clause, as check 5 answers no type: a seat is one number of its caller.
// From the walk's reach on stand the units of each node.
pub fn best_value(table: &GameTable, words: &mut [u64], seat: usize) -> i64
    requires { Ready (numbered table.now.tree.game) words.old × (seat < (numbered table.now.tree.game).seats) }
    ensures { (result ≡ table_best (tree_of (numbered table.now.tree.game)) table.now.parts
        (root_units (numbered table.now.tree.game) table.now.parts) table.now.entries.now seat)
        × Unbeaten (numbered table.now.tree.game) table.now.parts seat table.now.entries.now result
        × Staged (numbered table.now.tree.game) table.now.parts seat table.now.entries.now words.new × Stored (numbered table.now.tree.game) words.new }
{
    let u = root_units(table.tree, table.parts);
    let search = search_of(table.tree, shares_of(table), seat);
    collect(words, &search.walk, 0, u, DEPTH);
    clear(words, search.kept, search.kept + table.tree.game.entries());
    let sum = value(words, &search, 0, DEPTH);
    lowered(sum, u)
}

// Writes the seat's reply to the table to out, from the choices that best_value has left in the words.
pub fn write_best_reply(table: &GameTable, words: &mut [u64], seat: usize, out: &mut [u8])
    requires { Staged (numbered table.now.tree.game) table.now.parts seat table.now.entries.now words.old × (seat < (numbered table.now.tree.game).seats) }
    ensures { (out.new ≡ sets out.old 0 (reply_table (tree_of (numbered table.now.tree.game)) table.now.parts
        (root_units (numbered table.now.tree.game) table.now.parts) table.now.entries.now seat))
        × BestReply (numbered table.now.tree.game) table.now.parts seat table.now.entries.now
        (table_best (tree_of (numbered table.now.tree.game)) table.now.parts
        (root_units (numbered table.now.tree.game) table.now.parts) table.now.entries.now seat)
        (reply_table (tree_of (numbered table.now.tree.game)) table.now.parts
        (root_units (numbered table.now.tree.game) table.now.parts) table.now.entries.now seat) }
{
    let search = search_of(table.tree, table.entries, seat);
    write_reply(words, &search, table.parts, out, table.tree.game.sets());
}
