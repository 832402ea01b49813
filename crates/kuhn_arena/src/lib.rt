// Kuhn's tree, laid out in work memory: the deals, and below each full deal a hand.
#![tactic(auto)]

ghost use Rattle.std.specs.Prelude.{◌≡◌, ◌≤◌, length};
ghost use Rattle.kuhn_rules.specs.Stakes.{ante, stake};
ghost use Rattle.kuhn_tree.specs.Tree.{tree_of_kuhn};
ghost use Rattle.kuhn_tree.specs.Counts.{kuhn_nodes};
ghost use Rattle.game_tree.specs.Sets.{size};
ghost use Rattle.arena.specs.internal.Built.{Built, Room};
ghost use Rattle.kuhn_arena_layout.specs.internal.Layout.{code_of, deal_at, Dealing};

use arena::words::{chance, put};
use arrayvec::ArrayVec;
use kuhn_arena_hands::before_bet;
use prelude::contains;

// Lays out the tree below a deal to the first of n seats, at place at, the children by ascending card; the place behind it. The words and the place are no
// struct: each part of a tree has a place of its own, and the word of a chance node comes once the place behind its children is known.
fn deal(w: &mut [u64], at: usize, n: usize, cards: &mut ArrayVec<u8, 6>) -> usize
    requires dealing { Dealing n cards.old.items }
    requires room { Room at w.old (size (deal_at n cards.old.items)) }
    ensures built { Built n (code_of n) at w.old w.new (deal_at n cards.old.items) result }
    ensures same { cards.new.items ≡ cards.old.items }
{
    if cards.len() == n {
        return before_bet(w, at, cards.as_slice(), 0, 0);
    }
    let mut next = at + 1;
    for card in 0..n + 1 {
        if !contains(cards.as_slice(), card) {
            // By `as`, since u8 has no From of a usize.
            cards.push(card as u8);
            next = deal(w, next, n, cards);
            cards.pop();
        }
    }
    put(w, at, chance(next));
    next
}

// Lays out Kuhn's tree for n seats from place 0 on; the place behind it.
pub fn build(w: &mut [u64], n: usize) -> usize
    requires { (2 ≤ n) × (n ≤ 6) × (kuhn_nodes n ≤ length w.old) }
    ensures { Built n (code_of n) 0 w.old w.new (tree_of_kuhn ante stake n) result }
{
    deal(w, 0, n, &mut ArrayVec::new())
}
