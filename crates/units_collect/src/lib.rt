// The units of each node, for a seat that replies to a table: stored in work memory, behind the tree.
#![tactic(auto)]

pub mod ends;

ghost use Rattle.std.specs.Prelude.{◌≤◌, length};
ghost use Rattle.units.specs.internal.Readable.{Walkable};
ghost use Rattle.units_collect.specs.internal.Collected.{Collects, CollectsAll, Dealt, Each, Moved, Shared};

use arena::walk::{behind, fan};
use arena::words::{Node, actions, actor, kind, next, put, set, word};
use arena_walks::Walk;
use units::shares::Table;

// Stores the units of each node of the tree at place a, from u units: those of place p at place reach + p of the walk.
#[cycle(collect_deal_decide_divide_one_spread)]
pub fn collect(w: &mut [u64], walk: &Walk<Table>, a: usize, u: u64, depth: usize)
    requires { Walkable a u depth }
    ensures { Collects walk.now a u depth w.old w.new }
{
    if depth == 0 {
        return;
    }
    put(w, walk.reach + a, u);
    let x = word(w, a);
    match kind(x) {
        Node::End => {}
        Node::Chance => deal(w, walk, a + 1, next(x), u, depth - 1),
        _ => decide(w, walk, a + 1, x, u, depth - 1),
    }
}

// The same of the children of a chance node, which stand between places a and end.
#[cycle(collect_deal_decide_divide_one_spread)]
fn deal(w: &mut [u64], walk: &Walk<Table>, a: usize, end: usize, u: u64, depth: usize)
    requires { Walkable a u depth }
    ensures { CollectsAll (Dealt a end u) walk.now a depth w.old w.new }
{
    let count = fan(w, a, end);
    if count == 0 {
        return;
    }
    // `as`: both have 64 bits, and u64 has no From of usize.
    spread(w, walk, a, end, u / count as u64, depth);
}

// The same of the children of a decision with word x: own moves pass all units on.
#[cycle(collect_deal_decide_divide_one_spread)]
fn decide(w: &mut [u64], walk: &Walk<Table>, a: usize, x: u64, u: u64, depth: usize)
    requires { Walkable a u depth }
    ensures { CollectsAll (Moved walk.now.others.entries.now walk.now.others.parts walk.now.seat a x u) walk.now a depth w.old w.new }
{
    if actor(x) == walk.seat {
        spread(w, walk, a, next(x), u, depth);
        return;
    }
    let first = set(x);
    let end = first + actions(x);
    if walk.others.entries.len() < end {
        return;
    }
    divide(w, walk, a, &walk.others.entries[first..end], u, depth);
}

// The same of one tree of a row: an end at once, without a call.
#[cycle(collect_deal_decide_divide_one_spread)]
fn one(w: &mut [u64], walk: &Walk<Table>, a: usize, u: u64, depth: usize)
    requires { Walkable a u depth }
    ensures { Collects walk.now a u depth w.old w.new }
{
    match kind(word(w, a)) {
        Node::End => put(w, walk.reach + a, u),
        _ => collect(w, walk, a, u, depth),
    }
}

// The same of the trees between places a and end, with u units each. f64_collect has this loop too: it is part of a cycle of calls,
// which gets no proof through a trait's method, and the contract of one that took the step as a closure would be longer than the loop.
#[cycle(collect_deal_decide_divide_one_spread)]
fn spread(w: &mut [u64], walk: &Walk<Table>, a: usize, end: usize, u: u64, depth: usize)
    requires { Walkable a u depth }
    ensures { CollectsAll (Each a end u) walk.now a depth w.old w.new }
{
    let mut at = a;
    // A `while`: an iterator over the places would hold the words, which the body changes.
    while at < end {
        one(w, walk, at, u, depth);
        let next = behind(w, at);
        if next <= at {
            return;
        }
        at = next;
    }
}

// The same of the children of another seat's decision, by its set's own part of the table.
#[cycle(collect_deal_decide_divide_one_spread)]
fn divide(w: &mut [u64], walk: &Walk<Table>, a: usize, part: &[u8], u: u64, depth: usize)
    requires { Walkable a u depth }
    ensures { CollectsAll (Shared walk.now.others.entries.now part.now walk.now.others.parts u) walk.now a depth w.old w.new }
{
    // `as`: both have 64 bits, and u64 has no From of usize.
    let each = u / walk.others.parts as u64;
    let mut at = a;
    for &entry in part {
        one(w, walk, at, walk.others.share(entry, u, each), depth);
        at = behind(w, at);
    }
}
