// A hand with a bet, laid out in work memory.
#![tactic(auto)]

ghost use Rattle.std.specs.Prelude.{◌+◌, ◌*◌, ◌^◌, ◌≤◌, length};
ghost use Rattle.game_tree.specs.Sets.{size};
ghost use Rattle.arena.specs.internal.Built.{Built, Room};
ghost use Rattle.kuhn_arena_layout.specs.internal.Layout.{code_of, history_at, after_at, Betting};

use arena::words::put;
use kuhn_arena_words::{Money, decision_word};

// Lays out a hand with a bet, of left actions to come, at place at; the place behind it. The words and the place are no struct: each part of a tree has a place
// of its own, and the word of a decision comes once the places of its parts are known. The rest stays five parameters: a struct of them would be made anew at
// each of both calls, with three of its fields changed.
pub fn after_bet(
    w: &mut [u64],
    at: usize,
    cards: &[u8],
    number: usize,
    seat: usize,
    left: usize,
    money: &Money,
) -> usize
    requires betting { Betting (length cards.now) cards.now (history_at number) seat left money.now.lost money.now.pot money.now.winner }
    requires few { (number + 2) * 2 ^ left ≤ 4096 }
    requires room { Room at w.old (size (after_at (length cards.now) cards.now number left)) }
    ensures { Built (length cards.now) (code_of (length cards.now)) at w.old w.new (after_at (length cards.now) cards.now number left) result }
{
    if left == 0 {
        put(w, at, money.end_word());
        return at + 1;
    }
    let after = (seat + 1) % cards.len();
    let bet = after_bet(w, at + 1, cards, 2 * number + 1, after, left - 1, money);
    let with_bet = money.with_bet(cards, seat);
    let next = after_bet(w, bet, cards, 2 * number + 2, after, left - 1, &with_bet);
    put(w, at, decision_word(cards, number, seat, next));
    next
}
