// The listing of a game's sets: 24 bytes per set, in set order.
#![tactic(auto)]

ghost use Rattle.std.specs.Prelude.{◌≡◌, ◌≤◌, length};
ghost use Rattle.std.proofs.lemmas.List.Edits.{sets};
ghost use Rattle.refusals.specs.Outcomes.{number_of};
ghost use Rattle.games.specs.internal.Numbered.{numbered};
ghost use Rattle.tree_refusals.specs.Checks.{listing-refusal};
ghost use Rattle.listing.specs.Calls.{listing_of, answer, answer_of, written, game_of};

use games::Game;
use games::tree::GameTree;
use refusals::{Refusal, number_of};

// The nodes and sets of a game's tree.
#[derive(Clone, Copy, Default)]
pub struct Listed {
    pub nodes: usize,
    pub sets: usize,
}

// For C, a call's refusal number, 0 if it was accepted, and the nodes and sets; these are 0 if it was refused. The refusal is its number, since a struct with
// an enum in it does not cross to C.
#[repr(C)]
#[derive(Clone, Copy)]
pub struct ListingAnswer {
    pub refusal: u64,
    pub nodes: usize,
    pub sets: usize,
}

// Written for each call's struct, since one with a type parameter does not cross to C.
impl From<Result<Listed, Refusal>> for ListingAnswer {
    ghost from_gives = { λ outcome answer. answer ≡ answer_of outcome };

    fn from(outcome: Result<Listed, Refusal>) -> Self {
        let refusal = number_of(&outcome);
        let Listed { nodes, sets } = outcome.unwrap_or_default();
        ListingAnswer {
            refusal,
            nodes,
            sets,
        }
    }
}

// The listing of a game whose tree is not refused, from the start of an output.
fn write_listing(tree: GameTree, out: &mut [u8])
    requires { length (listing_of (numbered tree.game)) ≤ length out.old }
    ensures { out.new ≡ sets out.old 0 (listing_of (numbered tree.game)) }
{
    match tree.game {
        Game::Kuhn(seats) => kuhn_listing::list_sets(out, seats.count),
        Game::Leduc => leduc_listing::list_sets(out),
    }
}

// The sets of a game, written to out in set order, 24 bytes each: seat, key length, key, public card or 255, the first node's cards, legal count, 0.
// The work memory is only measured: the first node of each set is found by a rule on the cards.
pub fn enumerate_infosets(
    number: usize,
    seats: usize,
    work: &[u64],
    out: &mut [u8],
) -> Result<Listed, Refusal>
    ensures answer { answer_of result ≡ answer (listing-refusal (game_of number seats) (length work.now) (length out.old))
        (game_of number seats) }
    ensures output { out.new ≡ written (number_of result) (game_of number seats) out.old }
{
    let tree = tree_refusals::check_listing(number, seats, work.len(), out.len())?;
    write_listing(tree, out);
    Ok(Listed {
        nodes: tree.game.nodes(),
        sets: tree.game.sets(),
    })
}
