// The second round, and the showdown behind each history that closes it.
ghost use Rattle.std.specs.Prelude.{◌≡◌, ◌+◌, ◌*◌, ◌<◌, ◌≤◌};
ghost use Rattle.std.proofs.Common.{lit≤};
ghost use Rattle.std.specs.Ordering.{ordering_index};
ghost use Rattle.leduc_arena_layout.specs.internal.Layout.{end_tree, showdown_for};

use leduc_arena_rounds::Round;
use leduc_arena_rounds::words::end;
use std::cmp::Ordering;

// The round of a hand with these codes and this showdown.
#[derive(Drop)]
pub struct Second {
    zero: usize,
    one: usize,
    showdown: Ordering,
    ghost small: { (zero ≤ 9743) × (one ≤ 9743) },
}

// How seat 0 fares in the showdown: a pair with the public card wins, else the higher rank.
#[tactic(auto, using(std::proofs::lemmas::Bool::Decides::nat_tests), unfolding(leduc_arena_layout::specs::internal::Layout::showdown_for))]
fn showdown(c: usize, d: usize, p: usize) -> Ordering
    ensures { ordering_index result ≡ showdown_for c d p }
{
    if c / 2 == p / 2 {
        return Ordering::Greater;
    }
    if d / 2 == p / 2 {
        return Ordering::Less;
    }
    (c / 2).cmp(&(d / 2))
}

// The round with public card p, where seat 0 has card c and seat 1 card d, and number tells the first round's history.
pub fn after_public(c: usize, d: usize, p: usize, number: usize) -> Second
    requires { (c < 6) × (d < 6) × (p < 6) × (number ≤ 9702) }
    ensures zero { result.zero ≡ number + 6 * p + c }
    ensures one { result.one ≡ number + 6 * p + d }
    ensures showdown { ordering_index result.showdown ≡ showdown_for c d p }
{
    let code = number + 6 * p;
    Second {
        zero: code + c,
        one: code + d,
        showdown: showdown(c, d, p),
    }
}

impl Round for Second {
    ghost BASE = { 0 };

    ghost STEP = { 42 };

    ghost RAISE = { 4 };

    ghost most = { 5 };

    ghost zero = { λ hand. hand.zero };

    ghost one = { λ hand. hand.one };

    ghost closed = { λ hand m paid. end_tree (ordering_index hand.showdown) paid };

    ghost small = { (lit≤ tt, lit≤ tt, lit≤ tt) };

    const BASE: usize = 0;

    const STEP: usize = 42;

    const RAISE: usize = 4;

    fn codes(&self) -> [usize; 2] {
        [self.zero, self.one]
    }

    fn close(&self, w: &mut [u64], at: usize, _number: usize, paid: usize) -> usize {
        end(w, at, self.showdown, paid)
    }
}
