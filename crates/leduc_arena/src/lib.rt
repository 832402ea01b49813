// Leduc's tree, laid out in work memory: the deals, and below each the first round, the public card and the second round.
#![tactic(auto)]

mod first;
mod second;

ghost use Rattle.std.specs.Prelude.{not, ◌+◌, ◌<◌, ◌≤◌, eqb, length};
ghost use Rattle.game_tree.specs.Sets.{size};
ghost use Rattle.arena.specs.internal.Built.{Built, Row, Room};
ghost use Rattle.leduc_rules.specs.Stakes.{ante, raise₁, raise₂};
ghost use Rattle.leduc_tree.specs.Tree.{tree_of_leduc};
ghost use Rattle.leduc_tree.specs.Counts.{leduc_nodes};
ghost use Rattle.leduc_arena_layout.specs.internal.Codes.{code_of};
ghost use Rattle.leduc_arena_layout.specs.internal.Layout.{plain, deal_tree};

use arena::words::chance;
use first::First;
use leduc_arena_rounds::lay_out;

const DECK: usize = 6;

// What each seat has paid at the start.
const ANTE: usize = 1;

// Lays out the deals of seat 1's card, where seat 0 has card c, at place at; the place behind them.
fn deal_to_one(w: &mut [u64], at: usize, c: usize) -> usize
    requires c_bound { c < 6 }
    requires room { Room at w.old (size (deal_tree 1 6 c)) }
    ensures { Built 2 plain at w.old w.new (deal_tree 1 6 c) result }
{
    let mut next = at + 1;
    for d in 0..DECK {
        if d != c {
            next = lay_out(&First { zero: c, one: d }, w, next, ANTE);
        }
    }
    w[at] = chance(next);
    next
}

// Lays out Leduc's tree from place 0 on; the place behind it.
pub fn build(w: &mut [u64]) -> usize
    requires { leduc_nodes ≤ length w.old }
    ensures { Built 2 code_of 0 w.old w.new (tree_of_leduc ante raise₁ raise₂) result }
{
    let mut next = 1;
    for c in 0..DECK {
        next = deal_to_one(w, next, c);
    }
    w[0] = chance(next);
    next
}
