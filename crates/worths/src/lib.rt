// The worths of a table: what it is worth to each seat, in whole units.
#![tactic(auto)]

ghost use Rattle.std.specs.Prelude.{◌≡◌, length};
ghost use Rattle.refusals.specs.Outcomes.{number_of};
ghost use Rattle.games.specs.Games.{game_of};
ghost use Rattle.tree_refusals.specs.Checks.{evaluation_refusal};
ghost use Rattle.arena_store.specs.Memory.{MemoryAfter};
ghost use Rattle.worths.specs.Calls.{answer, answer_of};

use refusals::{Refusal, number_of};
use units_worths::worths::table_worths;

// The worth of each of count seats, 0 past them. Why it is a struct of its own: Payoffs of refusals.
#[derive(Clone, Copy, Default)]
pub struct SeatWorths {
    pub count: usize,
    pub worths: [i64; 6],
}

// For C, a call's refusal number, 0 if it was accepted, and the worths; every number but the first is 0 if it was refused.
// The refusal is its number, since a struct with an enum in it does not cross to C.
#[repr(C)]
#[derive(Clone, Copy)]
pub struct WorthsAnswer {
    pub refusal: u64,
    pub count: usize,
    pub worths: [i64; 6],
}

// Written for each call's struct, since one with a type parameter does not cross to C.
impl From<Result<SeatWorths, Refusal>> for WorthsAnswer {
    ghost from_gives = { λ outcome answer. answer ≡ answer_of outcome };

    fn from(outcome: Result<SeatWorths, Refusal>) -> Self {
        let refusal = number_of(&outcome);
        let SeatWorths { count, worths } = outcome.unwrap_or_default();
        WorthsAnswer {
            refusal,
            count,
            worths,
        }
    }
}

// What a table with d parts in each set is worth to each seat, in whole units. The tree is built at the front of the work memory, which has 12 words for each
// node.
#[tactic(auto, using(arena_store::proofs::Memory::front_left))]
pub fn worths(
    number: usize,
    seats: usize,
    work: &mut [u64],
    d: usize,
    table: &[u8],
) -> Result<SeatWorths, Refusal>
    ensures answer { answer_of result ≡ answer (evaluation_refusal (game_of number seats) (length work.old) d table.now)
        (game_of number seats) d table.now }
    ensures memory { MemoryAfter (number_of result) (game_of number seats) work.old work.new }
{
    let table = tree_refusals::check_evaluation(number, seats, work.len(), d, table)?;
    let (words, _) = arena_store::stored_in(work, table.tree);
    let worths = table_worths(&table, words);
    Ok(SeatWorths {
        count: table.tree.game.seats(),
        worths,
    })
}
