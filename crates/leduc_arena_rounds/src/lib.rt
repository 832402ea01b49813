// A round of betting of Leduc's tree, laid out in work memory. The two rounds are one but for their numbers and for what follows the history that closes them.
#![tactic(auto)]

pub mod words;

ghost use Rattle.std.specs.Prelude.{◌≡◌, cond, [], ◌∷◌, ℕ, ◌+◌, ◌*◌, ◌<◌, ◌≤◌, eqb};
ghost use Rattle.std.specs.Ordering.{ordering_index};
ghost use Rattle.game_tree.specs.Tree.{Tree};
ghost use Rattle.game_tree.specs.Sets.{size};
ghost use Rattle.arena.specs.internal.Built.{Built, Room};
ghost use Rattle.leduc_arena_layout.specs.internal.Layout.{plain, raised_tree, called_tree, round_tree, Raise};

use std::cmp::Ordering;
use words::{end, write_decision};

// How many raises of a round may come after its first.
const RERAISES: usize = 1;

// A round, at its start.
pub trait Round {
    // What a seat's code has beside its code at the start and the number of the history. That number is twice the number of the actions before, and STEP more
    // for CALL or two steps more for RAISE.
    const BASE: usize;

    const STEP: usize;

    // What a raise adds.
    const RAISE: usize;

    ghost BASE: { ℕ };

    ghost STEP: { ℕ };

    ghost RAISE: { ℕ };

    // The most that a seat has paid at the start.
    ghost most: { ℕ };

    ghost zero: { Self → ℕ };

    ghost one: { Self → ℕ };

    // The tree behind a history that closes the round, by its number and by what each seat has paid.
    ghost closed: { Self → ℕ → ℕ → Tree };

    // The codes of seat 0 and of seat 1 at the start.
    fn codes(&self) -> [usize; 2]
        ensures { (result ≡ zero self.now ∷ one self.now ∷ []) × (zero self.now ≤ 9743) × (one self.now ≤ 9743) };

    // Lays out what follows a history that closes the round, at place at; the place behind it. The words and the place are no struct: each part of a tree
    // has a place of its own, and the word of a decision comes once the places of its parts are known.
    fn close(&self, w: &mut [u64], at: usize, number: usize, paid: usize) -> usize
        requires few { (number ≤ 21 * STEP) × (paid ≤ most + 2 * RAISE) }
        requires room { Room at w.old (size (closed self.now number paid)) }
        ensures { Built 2 plain at w.old w.new (closed self.now number paid) result };

    ghost small: { (STEP ≤ 462) × (BASE ≤ 36) × (most + 2 * RAISE ≤ 13) };
}

// How seat 0 fares where a seat folds. A seat stays a number below 2, here and below: the words, the codes' places and the definitions have it as one.
fn folding(seat: usize) -> Ordering
    requires { seat < 2 }
    ensures { ordering_index result ≡ 2 * seat }
{
    if seat == 0 {
        Ordering::Less
    } else {
        Ordering::Greater
    }
}

// The code of a seat after a history with the given number.
fn code<R: Round>(round: &R, seat: usize, number: usize) -> usize
    requires { (seat < 2) × (number ≤ 10 * R.STEP) }
    ensures { (result ≡ cond (eqb seat 0) (R.zero round.now) (R.one round.now) + (number + R.BASE)) × (result < 16384) }
{
    round.codes()[seat] + (number + R::BASE)
}

// A history that ends with a raise: the seat to act, the number of the history, what the seat has paid, and how many raises may still come.
#[derive(Clone, Copy)]
struct Raised {
    seat: usize,
    number: usize,
    paid: usize,
    left: usize,
    ghost known: { seat < 2 },
}

// Lays out FOLD, CALL and, while raises may come, RAISE after a raise; below a RAISE one fewer may come.
fn after_raise<R: Round>(round: &R, w: &mut [u64], at: usize, raised: Raised) -> usize
    requires raise { Raise R.STEP R.RAISE R.most raised.number raised.paid raised.left }
    requires room { Room at w.old (size (raised_tree (R.zero round.now) (R.one round.now) R.BASE R.STEP R.RAISE (R.closed round.now)
        raised.left raised.seat raised.number raised.paid)) }
    ensures { Built 2 plain at w.old w.new (raised_tree (R.zero round.now) (R.one round.now) R.BASE R.STEP R.RAISE (R.closed round.now)
        raised.left raised.seat raised.number raised.paid) result }
{
    let Raised {
        seat,
        number,
        paid,
        left,
    } = raised;
    let more = paid + R::RAISE;
    let call = end(w, at + 1, folding(seat), paid);
    let raise = round.close(w, call, 2 * number + R::STEP, more);
    if left == 0 {
        write_decision(w, at, seat, 2, code(round, seat, number), raise);
        return raise;
    }
    let again = Raised {
        seat: 1 - seat,
        number: 2 * number + 2 * R::STEP,
        paid: more,
        left: left - 1,
    };
    let next = after_raise(round, w, raise, again);
    write_decision(w, at, seat, 3, code(round, seat, number), next);
    next
}

// Lays out CALL and RAISE of seat 1 after a CALL.
fn after_call<R: Round>(round: &R, w: &mut [u64], at: usize, paid: usize) -> usize
    requires few { paid ≤ R.most }
    requires room { Room at w.old (size (called_tree (R.zero round.now) (R.one round.now) R.BASE R.STEP R.RAISE (R.closed round.now) paid)) }
    ensures { Built 2 plain at w.old w.new (called_tree (R.zero round.now) (R.one round.now) R.BASE R.STEP R.RAISE (R.closed round.now) paid) result }
{
    let raise = round.close(w, at + 1, 3 * R::STEP, paid);
    let raised = Raised {
        seat: 0,
        number: 4 * R::STEP,
        paid,
        left: RERAISES,
    };
    let next = after_raise(round, w, raise, raised);
    write_decision(w, at, 1, 2, code(round, 1, R::STEP), next);
    next
}

// Lays out a round where each seat has paid so much, at place at; the place behind it.
pub fn lay_out<R: Round>(round: &R, w: &mut [u64], at: usize, paid: usize) -> usize
    requires few { paid ≤ R.most }
    requires room { Room at w.old (size (round_tree (R.zero round.now) (R.one round.now) R.BASE R.STEP R.RAISE (R.closed round.now) paid)) }
    ensures { Built 2 plain at w.old w.new (round_tree (R.zero round.now) (R.one round.now) R.BASE R.STEP R.RAISE (R.closed round.now) paid) result }
{
    let raise = after_call(round, w, at + 1, paid);
    let raised = Raised {
        seat: 1,
        number: 2 * R::STEP,
        paid,
        left: RERAISES,
    };
    let next = after_raise(round, w, raise, raised);
    write_decision(w, at, 0, 2, code(round, 0, 0), next);
    next
}
