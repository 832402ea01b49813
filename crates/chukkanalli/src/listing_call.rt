// The listing for C: the game's number and the seat count, then the memory that the call of crate listing takes.
// Numbers go in by `as` in each call: std has no From for u64 to usize, and a TryFrom would answer an error that cannot come.
ghost use Rattle.std.specs.Prelude.{◌≡◌, length};
ghost use Rattle.tree_refusals.specs.Checks.{listing-refusal};
ghost use Rattle.listing.specs.Calls.{answer, written, game_of};

use listing::ListingAnswer;

// The sets of a game, in set order.
#[unsafe(no_mangle)]
pub extern "C" fn chukkanalli_enumerate_infosets(
    game: u64,
    seats: u64,
    work: &[u64],
    out: &mut [u8],
) -> ListingAnswer
    ensures answer { result ≡ answer (listing-refusal (game_of game seats) (length work.now) (length out.old)) (game_of game seats) }
    ensures output { out.new ≡ written result.refusal (game_of game seats) out.old }
{
    listing::enumerate_infosets(game as usize, seats as usize, work, out).into()
}
