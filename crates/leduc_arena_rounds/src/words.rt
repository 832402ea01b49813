// The words of ends and decisions.
ghost use Rattle.std.specs.Prelude.{◌≡◌, ◌<◌, ◌≤◌, length};
ghost use Rattle.std.specs.Ordering.{ordering_index};
ghost use Rattle.game_tree.specs.Sets.{size};
ghost use Rattle.arena.specs.internal.Built.{Built, Room};
ghost use Rattle.arena.specs.internal.Words.{PLACES};
ghost use Rattle.leduc_arena_layout.specs.internal.Layout.{plain, byte_for, end_tree, Chosen};

use arena::words::decision;
use std::cmp::Ordering;

// The byte of a seat that has paid so much, by how it fares against the other seat: 64 stands for a payoff of 0.
#[tactic(auto, unfolding(leduc_arena_layout::specs::internal::Layout::byte_for))]
fn byte(outcome: Ordering, paid: usize) -> u64
    requires { paid ≤ 13 }
    ensures { (result ≡ byte_for (ordering_index outcome) paid) × (result < 128) }
{
    // Casts: u64 has no From for usize.
    match outcome {
        Ordering::Less => 64 - paid as u64,
        Ordering::Equal => 64,
        Ordering::Greater => 64 + paid as u64,
    }
}

// Lays out an end, by how seat 0 fares against seat 1, where each has paid so much or the loser has; the place behind it.
pub fn end(w: &mut [u64], at: usize, outcome: Ordering, paid: usize) -> usize
    requires { (paid ≤ 13) × Room at w.old (size (end_tree (ordering_index outcome) paid)) }
    ensures { Built 2 plain at w.old w.new (end_tree (ordering_index outcome) paid) result }
{
    w[at] = 4 * byte(outcome, paid) + 1024 * byte(outcome.reverse(), paid);
    at + 1
}

// Writes a seat's decision in the set of a code, where the trees of its actions end at next. It asks what the packing of a word asks of its parts: types of a
// seat, a number of actions, a code and a place would be made for this call and be taken apart in it.
pub fn write_decision(
    w: &mut [u64],
    at: usize,
    seat: usize,
    actions: usize,
    code: usize,
    next: usize,
)
    requires few { (seat < 2) × (actions < 4) × (code < 16384) }
    requires next_bound { (next < PLACES) × (at < length w.old) }
    ensures { Chosen at seat actions code next w.old w.new }
{
    w[at] = decision(seat, actions, code, next, 0);
}
