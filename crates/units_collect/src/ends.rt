// What the units at a tree's ends are worth to each seat: one pass over the places, where the units of each node are stored.
ghost use Rattle.std.specs.Prelude.{◌≤◌, ◌<◌};
ghost use Rattle.units.specs.internal.Sums.{Summed};
ghost use Rattle.units_collect.specs.internal.Ends.{end_gains, WithNode};
ghost use Rattle.arena.specs.internal.Words.{PLACES};
ghost use Rattle.units.specs.internal.Readable.{UNITS};

use arena::words::{Node, kind, word};
use units::UNITS;
use units::sums::Sums;

// The sums, and what y units of the node with word x are worth.
fn with_node(sums: Sums, x: u64, y: u64) -> Sums
    requires { y < UNITS }
    ensures { WithNode x y sums.of result.of }
{
    match kind(x) {
        Node::End => sums.plus(Sums::earned(x, y)),
        _ => sums,
    }
}

// What the nodes below place nodes are worth to each seat, with the units of place p at place units + p.
pub fn end_sums(w: &[u64], nodes: usize, units: usize) -> Sums
    requires { (nodes ≤ PLACES) × (units ≤ 8388608) }
    ensures { Summed (λ i. end_gains w.now units i 0 nodes) result.of }
{
    let mut sums = Sums::none();
    for a in 0..nodes {
        sums = with_node(sums, word(w, a), word(w, units + a) % UNITS);
    }
    sums
}
