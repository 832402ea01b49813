// The first round, and the public card behind each history that closes it.
ghost use Rattle.std.specs.Prelude.{◌+◌, ◌*◌, ◌<◌, ◌≤◌};
ghost use Rattle.std.proofs.Common.{lit≤};
ghost use Rattle.leduc_arena_layout.specs.internal.Layout.{public_tree};

use super::DECK;
use super::second::after_public;
use arena::words::chance;
use leduc_arena_rounds::{Round, lay_out};

// The round of a hand with these cards.
#[derive(Drop)]
pub struct First {
    pub zero: usize,
    pub one: usize,
    ghost dealt: { (zero < 6) × (one < 6) },
}

impl Round for First {
    ghost BASE = { 36 };

    ghost STEP = { 462 };

    ghost RAISE = { 2 };

    ghost most = { 1 };

    ghost zero = { λ hand. hand.zero };

    ghost one = { λ hand. hand.one };

    ghost closed = { λ hand. public_tree hand.zero hand.one };

    ghost small = { (lit≤ tt, lit≤ tt, lit≤ tt) };

    // A code without a public card has 36, six for each public card that there is, beside the card and the number of the history.
    const BASE: usize = 36;

    const STEP: usize = 462;

    const RAISE: usize = 2;

    fn codes(&self) -> [usize; 2] {
        [self.zero, self.one]
    }

    fn close(&self, w: &mut [u64], at: usize, number: usize, paid: usize) -> usize {
        let mut next = at + 1;
        for p in 0..DECK {
            if p != self.zero && p != self.one {
                next = lay_out(&after_public(self.zero, self.one, p, number), w, next, paid);
            }
        }
        w[at] = chance(next);
        next
    }
}
