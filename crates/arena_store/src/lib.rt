// A game's tree with its index in work memory: the first step of every evaluation. Behind it stand the words that an evaluation keeps.
#![tactic(auto)]

ghost use Rattle.std.specs.Prelude.{◌≡◌, ◌*◌, ◌≤◌, length, drop, ◌++◌};
ghost use Rattle.std.specs.Borrow.{sem, LendsBoth, Array, u64};
ghost use Rattle.arena.specs.internal.Built.{Built};
ghost use Rattle.games.specs.Games.{tree_of};
ghost use Rattle.games.specs.internal.Numbered.{numbered};
ghost use Rattle.games.specs.Facts.{nodes_of};
ghost use Rattle.arena_store.specs.internal.Stored.{code_of, codes_of, Stored};
ghost use Rattle.arena_store.specs.internal.Places.{Placed};

use arena::words::clear;
use arena_index::index;
use arena_walks::{Search, Walk};
use games::Game;
use games::tree::GameTree;

// How many codes the sets of Kuhn with 2 to 6 seats may have, and those of Leduc.
const KUHN_CODES: [usize; 5] = [24, 128, 640, 3072, 14336];

const LEDUC_CODES: usize = 10164;

// How many codes the sets of a game may have.
fn codes_of(tree: GameTree) -> usize
    ensures { result ≡ codes_of (numbered tree.game) }
{
    match tree.game {
        Game::Kuhn(seats) => KUHN_CODES[seats.count - 2],
        Game::Leduc => LEDUC_CODES,
    }
}

// Lays out a game's tree; the place behind it.
fn build(tree: GameTree, words: &mut [u64]) -> usize
    requires { nodes_of (numbered tree.game) ≤ length words.old }
    ensures { Built (numbered tree.game).seats (code_of (numbered tree.game)) 0 words.old words.new (tree_of (numbered tree.game)) result }
{
    match tree.game {
        Game::Kuhn(seats) => kuhn_arena::build(words, seats.count),
        Game::Leduc => leduc_arena::build(words),
    }
}

// Stores a game's tree with its index.
pub fn store(tree: GameTree, words: &mut [u64])
    requires { 12 * nodes_of (numbered tree.game) ≤ length words.old }
    ensures { Stored (numbered tree.game) words.new }
{
    let nodes = build(tree, words);
    let codes = codes_of(tree);
    clear(words, nodes, nodes + codes + tree.game.entries());
    index(words, nodes, codes);
}

// Stores a game's tree in the front of work memory, which has 12 words for each node. Answers the front and the rest: the two parts of a split can be handed
// on, with what the caller's memory becomes, and a front alone not. specs/internal/Stored.antt says why `Ready`, that a tree is stored, is no type.
pub fn stored_in<'w>(work: &'w mut [u64], tree: GameTree) -> (&'w mut [u64], &'w mut [u64])
    requires { 12 * nodes_of (numbered tree.game) ≤ length work.old }
    ensures* lends { sem 𝓛 (LendsBoth (Array u64 0) (Array u64 0) (Array u64 0) work.entry result ◌++◌) }
    ensures stored { Stored (numbered tree.game) result.0.now }
    ensures long { length result.0.now ≡ 12 * nodes_of (numbered tree.game) }
    ensures rest { result.1.now ≡ drop (12 * nodes_of (numbered tree.game)) work.old }
{
    let (words, rest) = work.split_at_mut(Game::WORDS * tree.game.nodes());
    store(tree, words);
    (words, rest)
}

// The search over a game's stored tree for a seat, whatever the others play.
pub fn search_of<T>(tree: GameTree, others: T, seat: usize) -> Search<T>
    ensures { Placed (numbered tree.game) others seat result }
{
    let nodes = tree.game.nodes();
    let heads = nodes + codes_of(tree);
    let reach = heads + tree.game.entries();
    let kept = reach + nodes;
    Search {
        walk: Walk {
            others,
            seat,
            reach,
        },
        heads,
        kept,
    }
}
