// NashConv of a table: what the seats would gain by their best values over their worths, added up, in whole units.
#![tactic(auto)]

ghost use Rattle.std.specs.Prelude.{◌≡◌, pos, length};
ghost use Rattle.game_tree.specs.Table.{nash_conv_over};
ghost use Rattle.refusals.specs.Outcomes.{number_of};
ghost use Rattle.games.specs.Games.{game_of, tree_of, root_units};
ghost use Rattle.games.specs.internal.Numbered.{numbered};
ghost use Rattle.tree_refusals.specs.Checks.{evaluation_refusal};
ghost use Rattle.arena_store.specs.Memory.{MemoryAfter};
ghost use Rattle.arena_store.specs.internal.Stored.{Ready};
ghost use Rattle.nash_conv_units.specs.Calls.{answer, answer_of, Whole, ZeroAtEquilibrium};

use refusals::{Refusal, number_of};
use tree_refusals::accepted::GameTable;
use units_best::best_value;
use units_worths::root_units;
use units_worths::worths::table_worths;

// NashConv, and the units of the root that it is measured in.
#[derive(Clone, Copy, Default)]
pub struct NashConv {
    pub nash_conv: u64,
    pub units: u64,
}

// For C, a call's refusal number, 0 if it was accepted, and NashConv with its units; every number but the first is 0 if it was refused.
// The refusal is its number, since a struct with an enum in it does not cross to C.
#[repr(C)]
#[derive(Clone, Copy)]
pub struct NashConvAnswer {
    pub refusal: u64,
    pub nash_conv: u64,
    pub units: u64,
}

// Written for each call's struct, since one with a type parameter does not cross to C.
impl From<Result<NashConv, Refusal>> for NashConvAnswer {
    ghost from_gives = { λ outcome answer. answer ≡ answer_of outcome };

    fn from(outcome: Result<NashConv, Refusal>) -> Self {
        let refusal = number_of(&outcome);
        let NashConv { nash_conv, units } = outcome.unwrap_or_default();
        NashConvAnswer {
            refusal,
            nash_conv,
            units,
        }
    }
}

// NashConv of a table, where the game's tree is stored. No seat's best value is below its worth.
fn gains(table: &GameTable, words: &mut [u64]) -> u64
    requires { Ready (numbered table.now.tree.game) words.old }
    ensures { pos result ≡ nash_conv_over (tree_of (numbered table.now.tree.game)) table.now.parts (root_units (numbered table.now.tree.game) table.now.parts)
        table.now.entries.now (numbered table.now.tree.game).seats }
{
    let worths = table_worths(table, words);
    let mut sum = 0;
    for seat in 0..table.tree.game.seats() {
        let best = best_value(table, words, seat);
        sum += best.abs_diff(worths[seat]);
    }
    sum
}

// NashConv of a table with d parts in each set: the sum of best value − worth over the seats, in whole units. The tree is built at the front of the work
// memory, which has 12 words for each node.
#[tactic(auto, using(arena_store::proofs::Memory::front_left))]
pub fn nash_conv_units(
    number: usize,
    seats: usize,
    work: &mut [u64],
    d: usize,
    table: &[u8],
) -> Result<NashConv, Refusal>
    ensures answer { answer_of result ≡ answer (evaluation_refusal (game_of number seats) (length work.old) d table.now)
        (game_of number seats) d table.now }
    ensures whole { Whole (answer_of result) (game_of number seats) d table.now }
    ensures equilibrium { ZeroAtEquilibrium (answer_of result) (game_of number seats) d table.now }
    ensures memory { MemoryAfter (number_of result) (game_of number seats) work.old work.new }
{
    let table = tree_refusals::check_evaluation(number, seats, work.len(), d, table)?;
    let (words, _) = arena_store::stored_in(work, table.tree);
    Ok(NashConv {
        nash_conv: gains(&table, words),
        units: root_units(table.tree, table.parts),
    })
}
