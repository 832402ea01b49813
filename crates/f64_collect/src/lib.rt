// The reach of each own decision of a seat that replies to a profile: stored in work memory, behind the tree.
#![tactic(auto)]

ghost use Rattle.std.specs.Prelude.{◌≤◌, length};
ghost use Rattle.f64_collect.specs.internal.Reached.{Divided, Each, Reached, ReachedAll, Walkable};

use arena::walk::{behind, fan};
use arena::words::{Node, actions, actor, kind, next, set, word};
use arena_walks::Walk;
use f64_numbers::{put_float, weight};

// Stores the reach of each of the seat's decisions in the tree at place a, from reach r: that of place p at place reach + p of the walk.
#[cycle(collect_divide_one_spread)]
pub fn collect(w: &mut [u64], walk: &Walk<&[f64]>, a: usize, r: f64, depth: usize)
    requires { Walkable a depth }
    ensures { Reached walk.now.others.now walk.now.seat walk.now.reach a r depth w.old w.new }
{
    if depth == 0 {
        return;
    }
    let x = word(w, a);
    let child = a + 1;
    let below = depth - 1;
    match kind(x) {
        Node::End => {}
        Node::Chance => {
            let end = next(x);
            let each = r * weight(fan(w, child, end));
            spread(w, walk, child, end, each, below);
        }
        _ if actor(x) == walk.seat => {
            put_float(w, walk.reach + a, r);
            spread(w, walk, child, next(x), r, below);
        }
        _ => {
            let first = set(x);
            let end = first + actions(x);
            if walk.others.len() < end {
                return;
            }
            divide(w, walk, child, &walk.others[first..end], r, below);
        }
    }
}

// The same of one tree of a row: an end has nothing to store, and needs no call.
#[cycle(collect_divide_one_spread)]
fn one(w: &mut [u64], walk: &Walk<&[f64]>, a: usize, r: f64, depth: usize)
    requires { Walkable a depth }
    ensures { Reached walk.now.others.now walk.now.seat walk.now.reach a r depth w.old w.new }
{
    match kind(word(w, a)) {
        Node::End => {}
        _ => collect(w, walk, a, r, depth),
    }
}

// The same of the trees between places a and end, each with reach r. units_collect has this loop too: it is part of a cycle of calls,
// which gets no proof through a trait's method, and the contract of one that took the step as a closure would be longer than the loop.
#[cycle(collect_divide_one_spread)]
fn spread(w: &mut [u64], walk: &Walk<&[f64]>, a: usize, end: usize, r: f64, depth: usize)
    requires { Walkable a depth }
    ensures { ReachedAll (Each a end r) walk.now.others.now walk.now.seat walk.now.reach a depth w.old w.new }
{
    let mut at = a;
    // A `while`: an iterator over the places would hold the words, which the body changes.
    while at < end {
        one(w, walk, at, r, depth);
        let next = behind(w, at);
        if next <= at {
            return;
        }
        at = next;
    }
}

// The same of the children of another seat's decision, by its set's own part of the profile.
#[cycle(collect_divide_one_spread)]
fn divide(w: &mut [u64], walk: &Walk<&[f64]>, a: usize, part: &[f64], r: f64, depth: usize)
    requires { Walkable a depth }
    ensures { ReachedAll (Divided walk.now.others.now part.now r) walk.now.others.now walk.now.seat walk.now.reach a depth w.old w.new }
{
    let mut at = a;
    for &p in part {
        one(w, walk, at, r * p, depth);
        at = behind(w, at);
    }
}
