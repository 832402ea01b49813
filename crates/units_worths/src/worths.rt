// What a table is worth to each seat, from the game's tree in work memory.
ghost use Rattle.std.specs.Prelude.{◌≡◌, ℕ, ◌*◌, ◌≤◌, ◌<◌, pos, ◌-ℤ◌, get_or};
ghost use Rattle.games.specs.internal.Numbered.{numbered};
ghost use Rattle.arena_store.specs.internal.Stored.{Stored, Ready};
ghost use Rattle.units_worths.specs.Worths.{worths_of};
ghost use Rattle.units_worths.specs.internal.Worths.{lowered_of};
ghost use Rattle.units.specs.internal.Readable.{UNITS};

use crate::{root_units, shares_of};
use arena_store::search_of;
use arena_walks::DEPTH;
use tree_refusals::accepted::GameTable;
use units::sums::Sums;
use units_collect::collect;
use units_collect::ends::end_sums;

// No actor's number: its field holds 0 to 7. No Option: each walk compares a seat's number with an actor's at every decision.
const NOBODY: usize = 8;

// A sum of u units lifted by 64, as a worth.
pub fn lowered(sum: u64, u: u64) -> i64
    requires { (u < UNITS) × (sum ≤ 124 * u) }
    ensures { result ≡ pos sum -ℤ pos (64 * u) }
{
    let lift = 64 * u;
    // `as`: both differences are below 2^63, and i64 has no From of u64.
    if sum < lift {
        return -((lift - sum) as i64);
    }
    (sum - lift) as i64
}

// The same of each of n seats; 0 past them.
fn lowered_all(sums: Sums, u: u64, n: usize) -> [i64; 6]
    requires { (n ≤ 6) × (u < UNITS) × ((i : ℕ) → i < n → get_or sums.of i 0 ≤ 124 * u) }
    ensures { result ≡ lowered_of sums.of u n }
{
    let mut out = [0; 6];
    for seat in 0..n {
        out[seat] = lowered(sums.of[seat], u);
    }
    out
}

// The worths of a table, where the game's tree is stored. For nobody's reply the units of each node are those of the table; they stand from the walk's reach
// on.
pub fn table_worths(table: &GameTable, words: &mut [u64]) -> [i64; 6]
    requires { Ready (numbered table.now.tree.game) words.old }
    ensures { (result ≡ worths_of (numbered table.now.tree.game) table.now.parts table.now.entries.now) × Stored (numbered table.now.tree.game) words.new }
{
    let u = root_units(table.tree, table.parts);
    let search = search_of(table.tree, shares_of(table), NOBODY);
    collect(words, &search.walk, 0, u, DEPTH);
    let sums = end_sums(words, table.tree.game.nodes(), search.walk.reach);
    lowered_all(sums, u, table.tree.game.seats())
}
