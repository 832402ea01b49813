// Value and choice call each other: the value of an own node asks its set's choice,
// and a choice asks the values below all members of its set, which lie deeper.
// A choice is kept in work memory once it is found.
// Kept apart from the walks in whole units over the same tree, since those have weighed on the way down what these weigh on the way up.
// What is left alike are the loops of `choose` and `total`, and `own`. A trait's method that leads back to its caller gets no proof; a closure can get one, but
// it would say again what `total` or `gain` ask and promise, to a function whose contract follows the closure's calls one by one: longer than the loops.
ghost use Rattle.std.specs.Prelude.{◌+◌};
ghost use Rattle.f64_values.specs.internal.Valued.{Walkable, Valued, Gained, Dealt, Split, ValuedOwn, Totalled, Chosen};

use arena::walk::{behind, fan};
use arena::words::{Node, actions, actor, kind, later, next, set, word};
use arena_walks::{Search, child};
use argmax::Lead;
use f64_numbers::{payoff_of, reached, weighed, weight};

// The value of the tree at place a for the walk's seat.
#[cycle(choose_dealt_gain_own_split_total_value)]
pub fn value(w: &mut [u64], search: &Search<&[f64]>, a: usize, depth: usize) -> f64
    requires { Walkable a search.now.walk.seat depth }
    ensures { Valued search.now.walk.others.now search.now.walk.seat depth search.now.heads search.now.walk.reach search.now.kept a w.old w.new result }
{
    if depth == 0 {
        return 0.0;
    }
    let x = word(w, a);
    match kind(x) {
        Node::End => 0.0,
        Node::Chance => dealt(w, search, a + 1, next(x), depth - 1),
        _ if actor(x) == search.walk.seat => own(w, search, a, x, depth - 1),
        _ => split(w, search, a + 1, x, depth - 1),
    }
}

// What the child at place a gives: the seat's payoff on the edge to it, 0.0 unless it is an end, and its value.
#[cycle(choose_dealt_gain_own_split_total_value)]
fn gain(w: &mut [u64], search: &Search<&[f64]>, a: usize, depth: usize) -> f64
    requires { Walkable a search.now.walk.seat depth }
    ensures { Gained search.now.walk.others.now search.now.walk.seat depth search.now.heads search.now.walk.reach search.now.kept a w.old w.new result }
{
    let x = word(w, a);
    match kind(x) {
        Node::End => payoff_of(x, search.walk.seat) + 0.0,
        _ => 0.0 + value(w, search, a, depth),
    }
}

// The value of a chance node, whose children stand between places a and end.
#[cycle(choose_dealt_gain_own_split_total_value)]
fn dealt(w: &mut [u64], search: &Search<&[f64]>, a: usize, end: usize, depth: usize) -> f64
    requires { Walkable a search.now.walk.seat depth }
    ensures { Dealt search.now.walk.others.now search.now.walk.seat depth search.now.heads search.now.walk.reach search.now.kept a end w.old w.new result }
{
    let each = weight(fan(w, a, end));
    let mut sum = 0.0;
    let mut at = a;
    // A `while`: an iterator over the places would hold the words, which the body changes.
    while at < end {
        let g = gain(w, search, at, depth);
        sum = sum + each * g;
        let next = behind(w, at);
        if next <= at {
            return sum;
        }
        at = next;
    }
    sum
}

// The value of another seat's decision with word x, whose children stand from place a on.
#[cycle(choose_dealt_gain_own_split_total_value)]
fn split(w: &mut [u64], search: &Search<&[f64]>, a: usize, x: u64, depth: usize) -> f64
    requires { Walkable a search.now.walk.seat depth }
    ensures { Split search.now.walk.others.now search.now.walk.seat depth search.now.heads search.now.walk.reach search.now.kept a x w.old w.new result }
{
    let first = set(x);
    let end = first + actions(x);
    if search.walk.others.len() < end {
        return 0.0;
    }
    let part = &search.walk.others[first..end];
    let mut sum = 0.0;
    let mut at = a;
    for &entry in part {
        let g = gain(w, search, at, depth);
        sum = weighed(entry, sum, g);
        at = behind(w, at);
    }
    sum
}

// The value of an own node at place a with word x: what its child gives, at the set's choice.
#[cycle(choose_dealt_gain_own_split_total_value)]
fn own(w: &mut [u64], search: &Search<&[f64]>, a: usize, x: u64, depth: usize) -> f64
    requires { Walkable (a + 1) search.now.walk.seat depth }
    ensures { ValuedOwn search.now.walk.others.now search.now.walk.seat depth search.now.heads search.now.walk.reach search.now.kept a x w.old w.new result }
{
    let choice = choose(w, search, set(x), actions(x), depth);
    let at = child(w, a, choice);
    gain(w, search, at, depth)
}

// The choice of the set whose first entry is given, with so many actions, by the sums over its members.
#[cycle(choose_dealt_gain_own_split_total_value)]
fn choose(w: &mut [u64], search: &Search<&[f64]>, first: usize, count: usize, depth: usize) -> usize
    requires { Walkable first search.now.walk.seat depth }
    ensures { Chosen search.now.walk.others.now search.now.walk.seat depth search.now.heads search.now.walk.reach search.now.kept first count
        w.old w.new result }
{
    if let Some(known) = search.known(w, first) {
        return known;
    }
    let mut lead = Lead::start();
    for action in 0..count {
        let sum = total(w, search, first, action, depth);
        lead = lead.past(action, sum);
    }
    search.keep(w, first, lead.action);
    lead.action
}

// The sum over the set's members, in their order, of reach × what the child behind an action gives.
#[cycle(choose_dealt_gain_own_split_total_value)]
fn total(w: &mut [u64], search: &Search<&[f64]>, first: usize, action: usize, depth: usize) -> f64
    requires { Walkable first search.now.walk.seat depth }
    ensures { Totalled search.now.walk.others.now search.now.walk.seat depth search.now.heads search.now.walk.reach search.now.kept first action
        w.old w.new result }
{
    let mut sum = 0.0;
    let mut at = search.first_member(w, first);
    // A `while`: an iterator over the places would hold the words, which the body changes.
    while 0 < at {
        let place = child(w, at, action);
        let g = gain(w, search, place, depth);
        sum = reached(w, search.walk.reach + at, sum, g);
        let next = later(word(w, at));
        if next <= at {
            return sum;
        }
        at = next;
    }
    sum
}
