// The f64 values of a profile, where its game's tree is stored. Behind the tree's index stand the reaches of a seat's nodes, and behind
// these its choices.
#![tactic(auto)]

ghost use Rattle.std.specs.Prelude.{◌≡◌, ◌*◌, ◌≤◌, ◌<◌, length};
ghost use Rattle.games.specs.internal.Numbered.{numbered};
ghost use Rattle.arena_store.specs.internal.Stored.{Stored, Ready};
ghost use Rattle.f64_games.specs.Values.{best_of, bests_of, worths_of, nash_conv_of, exploitability_of};

use arena::words::clear;
use arena_store::search_of;
use arena_walks::DEPTH;
use f64_collect::collect;
use f64_values::values::value;
use tree_refusals::accepted::GameProfile;

// The best response value of a seat to a profile. That the game has the seat is a clause, as check 5 answers no type: a seat is one number of its caller.
pub fn best_value(profile: &GameProfile, words: &mut [u64], seat: usize) -> f64
    requires { Ready (numbered profile.now.tree.game) words.old × (seat < (numbered profile.now.tree.game).seats) }
    ensures { (result ≡ best_of (numbered profile.now.tree.game) profile.now.entries.now seat) × Stored (numbered profile.now.tree.game) words.new }
{
    let search = search_of(profile.tree, profile.entries, seat);
    collect(words, &search.walk, 0, 1.0, DEPTH);
    clear(
        words,
        search.kept,
        search.kept + profile.tree.game.entries(),
    );
    value(words, &search, 0, DEPTH)
}

// The same of each seat; 0.0 past them.
pub fn best_values(profile: &GameProfile, words: &mut [u64]) -> [f64; 6]
    requires { Ready (numbered profile.now.tree.game) words.old }
    ensures { result ≡ bests_of (numbered profile.now.tree.game) profile.now.entries.now }
{
    let mut out = [0.0; 6];
    for seat in 0..profile.tree.game.seats() {
        out[seat] = best_value(profile, words, seat);
    }
    out
}

// What the profile is worth to each seat; 0.0 past them.
pub fn worths(profile: &GameProfile, words: &[u64]) -> [f64; 6]
    requires { Stored (numbered profile.now.tree.game) words.now }
    ensures { result ≡ worths_of (numbered profile.now.tree.game) profile.now.entries.now }
{
    let count = profile.tree.game.seats();
    let mut out = [0.0; 6];
    for pair in 0..count.div_ceil(2) {
        let seat = 2 * pair;
        let two = f64_worths::worths(words, profile.entries, 0, seat, DEPTH);
        out[seat] = two.first;
        if seat + 1 < count {
            out[seat + 1] = two.second;
        }
    }
    out
}

// NashConv: the sum of best value − worth by seat, from 0.0.
pub fn nash_conv(profile: &GameProfile, words: &mut [u64]) -> f64
    requires { Ready (numbered profile.now.tree.game) words.old }
    ensures { result ≡ nash_conv_of (numbered profile.now.tree.game) profile.now.entries.now }
{
    let worths = worths(profile, words);
    let seats = profile.tree.game.seats();
    let mut sum = 0.0;
    for seat in 0..seats {
        sum += best_value(profile, words, seat) - worths[seat];
    }
    sum
}

// Exploitability: NashConv divided by the seats.
pub fn exploitability(profile: &GameProfile, words: &mut [u64]) -> f64
    requires { Ready (numbered profile.now.tree.game) words.old }
    ensures { result ≡ exploitability_of (numbered profile.now.tree.game) profile.now.entries.now }
{
    // `as`: f64 has no From of usize.
    nash_conv(profile, words) / profile.tree.game.seats() as f64
}
