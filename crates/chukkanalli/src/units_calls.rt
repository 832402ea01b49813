// Whole units for C: the game's number and the seat count, then what the call of the crate takes.
// Numbers go in by `as` in each call: std has no From for u64 to usize, and a TryFrom would answer an error that cannot come.
ghost use Rattle.std.specs.Prelude.{◌≡◌, length};
ghost use Rattle.games.specs.Games.{game_of};
ghost use Rattle.tree_refusals.specs.Checks.{evaluation_refusal, reply-refusal};
ghost use Rattle.arena_store.specs.Memory.{MemoryAfter};
ghost use Rattle.worths.specs.Calls as Worths;
ghost use Rattle.best_reply.specs.Calls as Reply;
ghost use Rattle.nash_conv_units.specs.Calls as Conv;

use best_reply::ReplyAnswer;
use nash_conv_units::NashConvAnswer;
use worths::WorthsAnswer;

// What a table is worth to each seat.
#[unsafe(no_mangle)]
pub extern "C" fn chukkanalli_worths(
    game: u64,
    seats: u64,
    work: &mut [u64],
    d: u64,
    table: &[u8],
) -> WorthsAnswer
    ensures answer { result ≡ Worths.answer (evaluation_refusal (game_of game seats) (length work.old) d table.now)
        (game_of game seats) d table.now }
    ensures memory { MemoryAfter result.refusal (game_of game seats) work.old work.new }
{
    worths::worths(game as usize, seats as usize, work, d as usize, table).into()
}

// A seat's best value, and the reply that is worth it. Kept at seven parameters: C's header has them.
#[unsafe(no_mangle)]
pub extern "C" fn chukkanalli_best_reply(
    game: u64,
    seats: u64,
    work: &mut [u64],
    seat: u64,
    d: u64,
    table: &[u8],
    out: &mut [u8],
) -> ReplyAnswer
    ensures answer { result ≡ Reply.answer
        (reply-refusal (game_of game seats) (length work.old) seat d table.now (length out.old))
        (game_of game seats) seat d table.now }
    ensures output { out.new ≡ Reply.written result.refusal (game_of game seats) seat d table.now out.old }
    ensures best { Reply.Demand result.refusal (game_of game seats) seat d table.now result.value out.new }
    ensures memory { MemoryAfter result.refusal (game_of game seats) work.old work.new }
{
    best_reply::best_reply(
        game as usize,
        seats as usize,
        work,
        seat as usize,
        d as usize,
        table,
        out,
    )
    .into()
}

// NashConv: the sum of best value − worth over the seats.
#[unsafe(no_mangle)]
pub extern "C" fn chukkanalli_nash_conv_units(
    game: u64,
    seats: u64,
    work: &mut [u64],
    d: u64,
    table: &[u8],
) -> NashConvAnswer
    ensures answer { result ≡ Conv.answer (evaluation_refusal (game_of game seats) (length work.old) d table.now)
        (game_of game seats) d table.now }
    ensures whole { Conv.Whole result (game_of game seats) d table.now }
    ensures equilibrium { Conv.ZeroAtEquilibrium result (game_of game seats) d table.now }
    ensures memory { MemoryAfter result.refusal (game_of game seats) work.old work.new }
{
    nash_conv_units::nash_conv_units(game as usize, seats as usize, work, d as usize, table).into()
}
