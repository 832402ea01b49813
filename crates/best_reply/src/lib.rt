// The best value of a seat against a table, in whole units, and the reply that is worth it.
#![tactic(auto)]

ghost use Rattle.std.specs.Prelude.{◌≡◌, length};
ghost use Rattle.refusals.specs.Outcomes.{number_of};
ghost use Rattle.games.specs.Games.{game_of};
ghost use Rattle.tree_refusals.specs.Checks.{reply-refusal};
ghost use Rattle.arena_store.specs.Memory.{MemoryAfter};
ghost use Rattle.best_reply.specs.Calls.{answer, answer_of, written, Demand};

use refusals::{Refusal, number_of};

// For C, a call's refusal number, 0 if it was accepted, and the best value, 0 if it was refused.
// The refusal is its number, since a struct with an enum in it does not cross to C.
#[repr(C)]
#[derive(Clone, Copy)]
pub struct ReplyAnswer {
    pub refusal: u64,
    pub value: i64,
}

impl From<Result<i64, Refusal>> for ReplyAnswer {
    ghost from_gives = { λ outcome answer. answer ≡ answer_of outcome };

    fn from(outcome: Result<i64, Refusal>) -> Self {
        ReplyAnswer {
            refusal: number_of(&outcome),
            value: outcome.unwrap_or_default(),
        }
    }
}

// The best value of a seat against the other seats of a table with d parts in each set, and the reply, written to the front of out: the table with d on the
// chosen action in each of the seat's sets and 0 on its others. C's call has the same seven parameters.
#[tactic(auto, using(arena_store::proofs::Memory::front_left))]
pub fn best_reply(
    number: usize,
    seats: usize,
    work: &mut [u64],
    seat: usize,
    d: usize,
    table: &[u8],
    out: &mut [u8],
) -> Result<i64, Refusal>
    ensures answer { answer_of result ≡ answer
        (reply-refusal (game_of number seats) (length work.old) seat d table.now (length out.old))
        (game_of number seats) seat d table.now }
    ensures output { out.new ≡ written (number_of result) (game_of number seats) seat d table.now out.old }
    ensures best { Demand (number_of result) (game_of number seats) seat d table.now (answer_of result).value out.new }
    ensures memory { MemoryAfter (number_of result) (game_of number seats) work.old work.new }
{
    let table = tree_refusals::check_reply(number, seats, work.len(), seat, d, table, out.len())?;
    let (words, _) = arena_store::stored_in(work, table.tree);
    let value = units_best::best_value(&table, words, seat);
    units_best::write_best_reply(&table, words, seat, out);
    Ok(value)
}
