// What a profile is worth to two seats, one behind the other, in f64, read of a tree in work memory. No word is trusted: where no tree is held an answer means
// nothing, and the call still ends. The profile and the seat are handed on as they are, since nothing is stored behind the tree and a walk's places say nothing
// here.
#![tactic(auto)]

ghost use Rattle.std.specs.Prelude.{◌≡◌, ◌+◌, ◌<◌, ◌≤◌, length, get_or};
ghost use Rattle.std.specs.Float.{nan, binary64};
ghost use Rattle.std.specs.Float.Ieee.{of_int};
ghost use Rattle.arena.specs.internal.Words.{payoff_of};
ghost use Rattle.game_tree_f64.specs.Values.{nought, plus};
ghost use Rattle.f64_worths.specs.internal.Expected.{Both, Summed, Walkable, Expected, Gained, Dealt, Moved};

use arena::walk::{behind, fan};
use arena::words::{Node, actions, kind, next, set, word};
use f64_numbers::{payoff_of, weighed, weight};

// A number for each of two seats. Kept as a struct, since a cycle of calls that answer arrays gets no proof.
#[derive(Clone, Copy)]
pub struct Two {
    pub first: f64,
    pub second: f64,
}

// Sums that start.
fn none() -> Two
    ensures { (result.first ≡ nought) × (result.second ≡ nought) }
{
    Two {
        first: 0.0,
        second: 0.0,
    }
}

// The sums v, and p × g for each seat.
fn more(v: Two, p: f64, g: Two) -> Two
    ensures { Summed v p g result }
{
    Two {
        first: weighed(p, v.first, g.first),
        second: weighed(p, v.second, g.second),
    }
}

// g of the end with word x: the payoff on its edge, and 0.0.
fn paid(x: u64, seat: usize) -> Two
    requires { seat < 5 }
    ensures { Both (λ i g. g ≡ plus (of_int binary64 (payoff_of x i)) nought) seat result }
{
    let one = payoff_of(x, seat) + 0.0;
    let other = payoff_of(x, seat + 1) + 0.0;
    Two {
        first: one,
        second: other,
    }
}

// g of a node with the worths v that does not end the hand: 0.0 on its edge, and its worth.
fn unpaid(v: Two) -> Two
    ensures { (result.first ≡ plus nought v.first) × (result.second ≡ plus nought v.second) }
{
    Two {
        first: 0.0 + v.first,
        second: 0.0 + v.second,
    }
}

// The worths of the tree at place a to a seat and to the one behind it.
#[cycle(deal_decide_gains_worths)]
pub fn worths(w: &[u64], profile: &[f64], a: usize, seat: usize, depth: usize) -> Two
    requires { Walkable a seat depth }
    ensures { Both (Expected profile.now w.now a depth) seat result }
{
    if depth == 0 {
        return none();
    }
    let x = word(w, a);
    match kind(x) {
        Node::End => none(),
        Node::Chance => deal(w, profile, a + 1, next(x), seat, depth - 1),
        _ => decide(w, profile, a + 1, x, seat, depth - 1),
    }
}

// g of the child at place a: of an end at once, without a call.
#[cycle(deal_decide_gains_worths)]
fn gains(w: &[u64], profile: &[f64], a: usize, seat: usize, depth: usize) -> Two
    requires { Walkable a seat depth }
    ensures { Both (Gained profile.now w.now a depth) seat result }
{
    let x = word(w, a);
    match kind(x) {
        Node::End => paid(x, seat),
        _ => unpaid(worths(w, profile, a, seat, depth)),
    }
}

// The sums over the children of a chance node, which stand between places a and end.
#[cycle(deal_decide_gains_worths)]
fn deal(w: &[u64], profile: &[f64], a: usize, end: usize, seat: usize, depth: usize) -> Two
    requires { Walkable a seat depth }
    ensures { Both (Dealt profile.now w.now a end depth) seat result }
{
    let count = fan(w, a, end);
    let p = weight(count);
    let mut sums = none();
    let mut at = a;
    // A `while`: an iterator over the places would serve this loop and `fan` alone, since the other walks change the words as they go, and is longer than both.
    while at < end {
        let g = gains(w, profile, at, seat, depth);
        sums = more(sums, p, g);
        let next = behind(w, at);
        if next <= at {
            return sums;
        }
        at = next;
    }
    sums
}

// The sums over the children of a decision with word x, the first at place a.
// Kept written out for two children and a third: a loop over the entries looks for the place behind the last child in vain, and the walk takes 20 % more
// instructions.
#[cycle(deal_decide_gains_worths)]
fn decide(w: &[u64], profile: &[f64], a: usize, x: u64, seat: usize, depth: usize) -> Two
    requires { Walkable a seat depth }
    ensures { Both (Moved profile.now w.now a x depth) seat result }
{
    let first = set(x);
    let count = actions(x);
    let end = first + count;
    if count < 2 {
        return none();
    }
    if profile.len() < end {
        return none();
    }
    let part = &profile[first..end];
    let zero = gains(w, profile, a, seat, depth);
    let sums = more(none(), part[0], zero);
    let b = behind(w, a);
    let one = gains(w, profile, b, seat, depth);
    let both = more(sums, part[1], one);
    if count == 2 {
        return both;
    }
    let c = behind(w, b);
    let two = gains(w, profile, c, seat, depth);
    more(both, part[2], two)
}
