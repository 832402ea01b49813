// The checks, each by its number; 1 to 4 together, since each needs those before it, and so 7 and 8 of a table.
ghost use Rattle.std.specs.Prelude.{◌≡◌, [], ◌∷◌, ◌*◌, ◌≤◌, ◌<◌, IfOk, length, sum};
ghost use Rattle.refusals.specs.Outcomes.{number_of};
ghost use Rattle.refusals.specs.internal.Settled.{Settled};
ghost use Rattle.game_tree.specs.Sets.{entries};
ghost use Rattle.game_tree.specs.Table.{add_up, ValidTable};
ghost use Rattle.games.specs.Games.{game_of, tree_of, most_parts};
ghost use Rattle.games.specs.internal.Numbered.{numbered};
ghost use Rattle.games.specs.Facts.{nodes_of, entries_of};
ghost use Rattle.games.specs.internal.Actions.{actions_of};
ghost use Rattle.games.specs.Known.{Known};
ghost use Rattle.tree_refusals.specs.Checks.{tree_checks, seat_check, parts_check, length_check, sum_check, output_check};
ghost use Rattle.tree_refusals.specs.Accepted.{AcceptedTable};
ghost use Rattle.tree_refusals.specs.internal.Accepted.{AcceptedProfile};

use crate::accepted::{GameProfile, GameTable};
use games::Game;
use games::tree::GameTree;
use refusals::Refusal;

// The most nodes of a tree.
const MOST_NODES: usize = 4000000;

// 1 to 4: the game of a number and a seat count, with so many words of work memory.
#[tactic(auto, using(games::proofs::Numbered::known_if_small))]
pub fn check_tree(number: usize, seats: usize, memory: usize) -> Result<GameTree, Refusal>
    ensures made { IfOk result (λ tree. numbered tree.game ≡ game_of number seats) }
    ensures refused { Settled (tree_checks (game_of number seats) memory)
        (Known (game_of number seats) × (12 * nodes_of (game_of number seats) ≤ memory)) (number_of result) }
{
    let game = Game::by_number(number, seats)?;
    let nodes = game.nodes();
    if MOST_NODES < nodes {
        return Err(Refusal::Tree);
    }
    if memory < Game::WORDS * nodes {
        return Err(Refusal::Memory);
    }
    Ok(GameTree { game })
}

// 5: a seat.
pub fn check_seat(game: Game, seat: usize) -> Result<(), Refusal>
    ensures { Settled (seat_check (numbered game) seat ∷ []) (seat < (numbered game).seats) (number_of result) }
{
    if game.seats() <= seat {
        return Err(Refusal::Seat);
    }
    Ok(())
}

// 6: D, the parts per set.
fn check_parts(game: Game, d: usize) -> Result<(), Refusal>
    ensures { Settled (parts_check (numbered game) d ∷ []) ((1 ≤ d) × (d ≤ most_parts (numbered game))) (number_of result) }
{
    if d == 0 || game.most_parts() < d {
        return Err(Refusal::Parts);
    }
    Ok(())
}

// 7: a table or a profile of n entries.
pub fn check_length(game: Game, n: usize) -> Result<(), Refusal>
    ensures { Settled (length_check (numbered game) n ∷ []) (n ≡ entries (tree_of (numbered game))) (number_of result) }
{
    if n != game.entries() {
        return Err(Refusal::Table);
    }
    Ok(())
}

// The parts of one set, which are the given part of a table, added up in more than a byte.
fn part_sum(part: &[u8]) -> usize
    requires { length part.now ≤ 3 }
    ensures { result ≡ sum part.now }
{
    part.iter().map(|p| usize::from(*p)).sum()
}

// Whether the parts of each set add up to d.
fn adds_up(game: Game, table: &[u8], d: usize) -> bool
    requires { length table.now ≡ entries_of (numbered game) }
    ensures { result ≡ add_up d (actions_of (numbered game)) table.now }
{
    let mut at = 0;
    for set in 0..game.sets() {
        let end = at + game.actions(set);
        if part_sum(&table[at..end]) != d {
            return false;
        }
        at = end;
    }
    true
}

// 7 and 8: the entries of a table, for d parts in each set.
pub fn check_entries(game: Game, d: usize, table: &[u8]) -> Result<(), Refusal>
    ensures { Settled (length_check (numbered game) (length table.now) ∷ sum_check (numbered game) d table.now ∷ [])
        (ValidTable (tree_of (numbered game)) d table.now) (number_of result) }
{
    check_length(game, table.len())?;
    if !adds_up(game, table, d) {
        return Err(Refusal::Sum);
    }
    Ok(())
}

// 6 to 8: a table with d parts in each set.
pub fn check_table<'a>(tree: GameTree, d: usize, table: &'a [u8]) -> Result<GameTable<'a>, Refusal>
    ensures made { IfOk result (λ t. (numbered t.tree.game ≡ numbered tree.game) × (t.parts ≡ d) × (t.entries.now ≡ table.now)) }
    ensures refused { Settled (parts_check (numbered tree.game) d ∷ length_check (numbered tree.game) (length table.now)
        ∷ sum_check (numbered tree.game) d table.now ∷ []) (AcceptedTable (numbered tree.game) d table.now) (number_of result) }
{
    check_parts(tree.game, d)?;
    check_entries(tree.game, d, table)?;
    Ok(GameTable {
        tree,
        parts: d,
        entries: table,
    })
}

// 7: a profile.
pub fn check_profile<'a>(tree: GameTree, profile: &'a [f64]) -> Result<GameProfile<'a>, Refusal>
    ensures made { IfOk result (λ p. (numbered p.tree.game ≡ numbered tree.game) × (p.entries.now ≡ profile.now)) }
    ensures refused { Settled (length_check (numbered tree.game) (length profile.now) ∷ [])
        (AcceptedProfile (numbered tree.game) profile.now) (number_of result) }
{
    check_length(tree.game, profile.len())?;
    Ok(GameProfile {
        tree,
        entries: profile,
    })
}

// 9: an output of room bytes, for n.
pub fn check_output(n: usize, room: usize) -> Result<(), Refusal>
    ensures { Settled (output_check n room ∷ []) (n ≤ room) (number_of result) }
{
    if room < n {
        return Err(Refusal::Output);
    }
    Ok(())
}
