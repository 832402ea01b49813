// Value and choice call each other: the value of an own node asks its set's choice,
// and a choice asks the values below all members of its set, which lie deeper.
// A choice is kept in work memory once it is found. The reach of the search's walk is the units of each node.
// Kept apart from the walks in f64 over the same tree, since those weigh what a child gives on the way up, where these have weighed its units on the way down.
// What is left alike are the loops of `choose` and `total`, and `own`. A trait's method that leads back to its caller gets no proof; a closure can get one, but
// it would say again what `total` or `below` ask and promise, to a function whose contract follows the closure's calls one by one: longer than the loops.
ghost use Rattle.std.specs.Prelude.{◌≡◌, ◌+◌, ◌*◌, ◌%◌, ◌<◌, slice_index};
ghost use Rattle.arena.specs.internal.Words.{byte_of};
ghost use Rattle.units_values.specs.internal.Valued.{Walkable, Valued, ValuedAll, ValuedOwn, Totalled, Chosen};
ghost use Rattle.units.specs.internal.Readable.{UNITS};

use arena::payoffs::lifted;
use arena::walk::behind;
use arena::words::{Node, actions, actor, kind, later, next, set, word};
use arena_walks::{Search, child};
use argmax::Lead;
use units::UNITS;

// The lifted value of the end at place a with word x.
fn ended<T>(w: &[u64], search: &Search<T>, a: usize, x: u64) -> u64
    requires { (search.now.walk.seat < 6) × (a < 16777216) }
    ensures { result ≡ slice_index w.now (search.now.walk.reach + a) % UNITS * byte_of x search.now.walk.seat }
{
    word(w, search.walk.reach + a) % UNITS * lifted(x, search.walk.seat)
}

// The lifted value of the tree at place a for the walk's seat, modulo 2^64.
#[cycle(below_choose_own_row_total_value)]
pub fn value<T>(w: &mut [u64], search: &Search<T>, a: usize, depth: usize) -> u64
    requires { Walkable a search.now.walk.seat depth }
    ensures { Valued search.now.walk.seat depth search.now.heads search.now.walk.reach search.now.kept a w.old w.new result }
{
    if depth == 0 {
        return 0;
    }
    let x = word(w, a);
    match kind(x) {
        Node::End => ended(w, search, a, x),
        Node::Decision if actor(x) == search.walk.seat => own(w, search, a, x, depth - 1),
        _ => row(w, search, a + 1, next(x), depth - 1),
    }
}

// The same of a child: an end at once, without a call.
#[cycle(below_choose_own_row_total_value)]
fn below<T>(w: &mut [u64], search: &Search<T>, a: usize, depth: usize) -> u64
    requires { Walkable a search.now.walk.seat depth }
    ensures { Valued search.now.walk.seat depth search.now.heads search.now.walk.reach search.now.kept a w.old w.new result }
{
    let x = word(w, a);
    match kind(x) {
        Node::End => ended(w, search, a, x),
        _ => value(w, search, a, depth),
    }
}

// The sum of the values of the trees between places a and end.
#[cycle(below_choose_own_row_total_value)]
fn row<T>(w: &mut [u64], search: &Search<T>, a: usize, end: usize, depth: usize) -> u64
    requires { Walkable a search.now.walk.seat depth }
    ensures { ValuedAll search.now.walk.seat depth search.now.heads search.now.walk.reach search.now.kept a end w.old w.new result }
{
    let mut sum = 0u64;
    let mut at = a;
    // A `while`: an iterator over the places would hold the words, which the body changes.
    while at < end {
        sum = sum.wrapping_add(below(w, search, at, depth));
        let next = behind(w, at);
        if next <= at {
            return sum;
        }
        at = next;
    }
    sum
}

// The value of an own node at place a with word x: its child's, at the set's choice.
#[cycle(below_choose_own_row_total_value)]
fn own<T>(w: &mut [u64], search: &Search<T>, a: usize, x: u64, depth: usize) -> u64
    requires { Walkable (a + 1) search.now.walk.seat depth }
    ensures { ValuedOwn search.now.walk.seat depth search.now.heads search.now.walk.reach search.now.kept a x w.old w.new result }
{
    let choice = choose(w, search, set(x), actions(x), depth);
    let at = child(w, a, choice);
    below(w, search, at, depth)
}

// The choice of the set whose first entry is given, with so many actions: the lowest with the greatest sum over its members.
#[cycle(below_choose_own_row_total_value)]
pub fn choose<T>(
    w: &mut [u64],
    search: &Search<T>,
    first: usize,
    count: usize,
    depth: usize,
) -> usize
    requires { Walkable first search.now.walk.seat depth }
    ensures { Chosen search.now.walk.seat depth search.now.heads search.now.walk.reach search.now.kept first count w.old w.new result }
{
    if let Some(known) = search.known(w, first) {
        return known;
    }
    let mut lead = Lead::start();
    for action in 0..count {
        let sum = total(w, search, first, action, depth);
        lead = lead.past(action, sum);
    }
    search.keep(w, first, lead.action);
    lead.action
}

// The sum over the set's members of the values behind an action.
#[cycle(below_choose_own_row_total_value)]
fn total<T>(w: &mut [u64], search: &Search<T>, first: usize, action: usize, depth: usize) -> u64
    requires { Walkable first search.now.walk.seat depth }
    ensures { Totalled search.now.walk.seat depth search.now.heads search.now.walk.reach search.now.kept first action w.old w.new result }
{
    let mut sum = 0u64;
    let mut at = search.first_member(w, first);
    // A `while`: an iterator over the places would hold the words, which the body changes.
    while 0 < at {
        let place = child(w, at, action);
        sum = sum.wrapping_add(below(w, search, place, depth));
        let next = later(word(w, at));
        if next <= at {
            return sum;
        }
        at = next;
    }
    sum
}
