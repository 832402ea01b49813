// A hand of Kuhn's tree, laid out in work memory.
#![tactic(auto)]

ghost use Rattle.std.specs.Prelude.{◌-◌, length};
ghost use Rattle.game_tree.specs.Sets.{size};
ghost use Rattle.arena.specs.internal.Built.{Built, Room};
ghost use Rattle.kuhn_arena_layout.specs.internal.Layout.{code_of, history_at, before_at, Passing};

use arena::words::put;
use kuhn_arena_bets::after_bet;
use kuhn_arena_words::{Money, decision_word, highest, unit};

// The word of an end at which each of six seats has lost its ante.
const ANTES: u64 = 0xFCFCFCFCFCFC;

// Lays out a hand without a bet from a seat's turn on, at place at; the place behind it. The words and the place are no struct: each part of a tree has a place
// of its own, and the word of a decision comes once the places of its parts are known. n becomes a u64 by `as`, since std has no From between the two.
pub fn before_bet(w: &mut [u64], at: usize, cards: &[u8], number: usize, seat: usize) -> usize
    requires passing { Passing (length cards.now) cards.now (history_at number) seat number }
    requires room { Room at w.old (size (before_at (length cards.now) cards.now number (length cards.now - seat))) }
    ensures { Built (length cards.now) (code_of (length cards.now)) at w.old w.new
        (before_at (length cards.now) cards.now number (length cards.now - seat)) result }
{
    let n = cards.len();
    if seat == n {
        let antes = Money {
            lost: ANTES,
            pot: n as u64,
            winner: highest(cards),
        };
        put(w, at, antes.end_word());
        return at + 1;
    }
    let bet = before_bet(w, at + 1, cards, 2 * number + 1, seat + 1);
    let first_bet = Money {
        lost: ANTES - unit(seat),
        pot: n as u64 + 1,
        winner: seat,
    };
    let after = (seat + 1) % n;
    let behind = after_bet(w, bet, cards, 2 * number + 2, after, n - 1, &first_bet);
    put(w, at, decision_word(cards, number, seat, behind));
    behind
}
