// What a call that needs a game's tree is given, checked before a word of work memory is written: the tree first, and behind it the rest in the order of the
// numbers. The first refusal decides. The number of a game, its seats and the length of the memory go in beside one another, as C's calls have them.
#![tactic(auto)]

pub mod accepted;
pub mod checks;
pub mod numbers;

ghost use Rattle.std.specs.Prelude.{◌≡◌, ◌*◌, ◌≤◌, ◌<◌, IfOk, length};
ghost use Rattle.refusals.specs.Outcomes.{number_of};
ghost use Rattle.refusals.specs.internal.Settled.{Settled};
ghost use Rattle.game_tree.specs.Sets.{set_count, entries};
ghost use Rattle.games.specs.Games.{game_of, tree_of};
ghost use Rattle.games.specs.internal.Numbered.{numbered};
ghost use Rattle.games.specs.Facts.{nodes_of};
ghost use Rattle.games.specs.Known.{Known};
ghost use Rattle.tree_refusals.specs.Checks.{listing_checks, evaluation_checks, reply_checks, value_checks, values_checks};
ghost use Rattle.tree_refusals.specs.Accepted.{AcceptedTable};
ghost use Rattle.tree_refusals.specs.internal.Accepted.{AcceptedProfile};

use crate::accepted::{GameProfile, GameTable};
use crate::checks::{check_output, check_profile, check_seat, check_table, check_tree};
use games::tree::GameTree;
use refusals::Refusal;

// The game of a listing into an output of room bytes, with so many words of work memory (enumerate_infosets): 1 to 4, then 9.
pub fn check_listing(
    number: usize,
    seats: usize,
    memory: usize,
    room: usize,
) -> Result<GameTree, Refusal>
    ensures made { IfOk result (λ tree. numbered tree.game ≡ game_of number seats) }
    ensures refused { Settled (listing_checks (game_of number seats) memory room)
        (Known (game_of number seats) × (24 * set_count (tree_of (game_of number seats)) ≤ room)) (number_of result) }
{
    let tree = check_tree(number, seats, memory)?;
    check_output(listing_records::RECORD * tree.game.sets(), room)?;
    Ok(tree)
}

// The table of a call that evaluates all seats of one with d parts in each set (worths, nash_conv_units): 1 to 4, then 6 to 8.
pub fn check_evaluation<'a>(
    number: usize,
    seats: usize,
    memory: usize,
    d: usize,
    table: &'a [u8],
) -> Result<GameTable<'a>, Refusal>
    ensures made { IfOk result (λ t. (numbered t.tree.game ≡ game_of number seats) × (t.parts ≡ d) × (t.entries.now ≡ table.now)) }
    ensures refused { Settled (evaluation_checks (game_of number seats) memory d table.now)
        (AcceptedTable (game_of number seats) d table.now × (12 * nodes_of (game_of number seats) ≤ memory)) (number_of result) }
{
    let tree = check_tree(number, seats, memory)?;
    check_table(tree, d, table)
}

// The table of a call that evaluates one seat into an output of room bytes (best_reply): 1 to 9. C's call has the same parameters.
pub fn check_reply<'a>(
    number: usize,
    seats: usize,
    memory: usize,
    seat: usize,
    d: usize,
    table: &'a [u8],
    room: usize,
) -> Result<GameTable<'a>, Refusal>
    ensures made { IfOk result (λ t. (numbered t.tree.game ≡ game_of number seats) × (t.parts ≡ d) × (t.entries.now ≡ table.now)) }
    ensures refused { Settled (reply_checks (game_of number seats) memory seat d table.now room)
        (AcceptedTable (game_of number seats) d table.now × (12 * nodes_of (game_of number seats) ≤ memory) × (seat < seats)
        × (entries (tree_of (game_of number seats)) ≤ room)) (number_of result) }
{
    let tree = check_tree(number, seats, memory)?;
    let game = tree.game;
    check_seat(game, seat)?;
    let table = check_table(tree, d, table)?;
    check_output(game.entries(), room)?;
    Ok(table)
}

// The profile of a call that evaluates one seat (best_response_value): 1 to 5, then 7.
pub fn check_value<'a>(
    number: usize,
    seats: usize,
    memory: usize,
    seat: usize,
    profile: &'a [f64],
) -> Result<GameProfile<'a>, Refusal>
    ensures made { IfOk result (λ p. (numbered p.tree.game ≡ game_of number seats) × (p.entries.now ≡ profile.now)) }
    ensures refused { Settled (value_checks (game_of number seats) memory seat (length profile.now))
        (AcceptedProfile (game_of number seats) profile.now × (12 * nodes_of (game_of number seats) ≤ memory) × (seat < seats)) (number_of result) }
{
    let tree = check_tree(number, seats, memory)?;
    check_seat(tree.game, seat)?;
    check_profile(tree, profile)
}

// The profile of a call that evaluates all seats (best_response_values, profile_values, nash_conv, exploitability): 1 to 4, then 7.
pub fn check_values<'a>(
    number: usize,
    seats: usize,
    memory: usize,
    profile: &'a [f64],
) -> Result<GameProfile<'a>, Refusal>
    ensures made { IfOk result (λ p. (numbered p.tree.game ≡ game_of number seats) × (p.entries.now ≡ profile.now)) }
    ensures refused { Settled (values_checks (game_of number seats) memory (length profile.now))
        (AcceptedProfile (game_of number seats) profile.now × (12 * nodes_of (game_of number seats) ≤ memory)) (number_of result) }
{
    let tree = check_tree(number, seats, memory)?;
    check_profile(tree, profile)
}
