// Ways over a stored tree that know nothing of what is added up on them. A node is its place in the words, and no box, since the library has no heap: each step
// has the words and a place. What it asks of the place and of the depth that is left (`Walkable`), and of a set's first entry, stays a clause: each is another
// number at the next step, and a type would be made anew there, with its proof.
#![tactic(auto)]

ghost use Rattle.std.specs.Prelude.{◌≡◌, ◌↔◌, None, IfSome, get_or, set, ◌+◌, ◌%◌, ◌^◌, ◌<◌, ◌≤◌};
ghost use Rattle.arena.specs.internal.Words.{PLACES};
ghost use Rattle.arena_walks.specs.internal.Child.{Child};

use arena::walk;
use arena::walk::behind;
use arena::words::{PLACES, put, word};

// The depth of a walk: no path of a game has more nodes.
pub const DEPTH: usize = 32;

// A walk over a stored tree for a seat: what the others play, and the place of the words behind the tree that say what each node is given, its units or its
// reach.
#[derive(Drop)]
pub struct Walk<T> {
    pub others: T,
    pub seat: usize,
    pub reach: usize,
    ghost near: { reach ≤ 16777216 },
}

// A walk that seeks the seat's best value, with the places of two words for each set, which goes by its first entry: its first member, and its choice + 1, or 0
// as long as that is not found.
#[derive(Drop)]
pub struct Search<T> {
    pub walk: Walk<T>,
    pub heads: usize,
    pub kept: usize,
    ghost heads_near: { heads ≤ 16777216 },
    ghost kept_near: { kept ≤ 16777216 },
}

impl<T> Search<T> {
    // The place of a set's first member; 0 if it has none, as the words have it and the walks along `later` end.
    pub fn first_member(&self, w: &[u64], first: usize) -> usize
        requires { first < 8388608 }
        ensures { result ≡ get_or w.now (self.now.heads + first) 0 % PLACES }
    {
        // `as`: a place of a word is below 2^21, and usize has no From of u64.
        (word(w, self.heads + first) % PLACES) as usize
    }

    // The choice of a set, if it is found.
    pub fn known(&self, w: &[u64], first: usize) -> Option<usize>
        requires { first < 8388608 }
        ensures none { result ≡ None ↔ get_or w.now (self.now.kept + first) 0 ≡ 0 }
        ensures some { IfSome result (λ choice. get_or w.now (self.now.kept + first) 0 ≡ choice + 1) }
    {
        match word(w, self.kept + first) {
            0 => None,
            // `as`: both have 64 bits, and usize has no From of u64.
            found => Some(found as usize - 1),
        }
    }

    // Keeps the choice of a set.
    pub fn keep(&self, w: &mut [u64], first: usize, choice: usize)
        requires { (first < 8388608) × (choice + 1 < 2 ^ 64) }
        ensures { w.new ≡ set w.old (self.now.kept + first) (choice + 1) }
    {
        // `as`: both have 64 bits, and u64 has no From of usize.
        put(w, self.kept + first, choice as u64 + 1);
    }
}

// The place of child c, at most the third, of the node at place a.
pub fn child(w: &[u64], a: usize, c: usize) -> usize
    requires { a < 8388607 }
    ensures { Child w.now a c result }
{
    let first = (a + 1) % walk::PLACES;
    if c == 0 {
        return first;
    }
    let second = behind(w, first);
    if c == 1 {
        return second;
    }
    behind(w, second)
}
