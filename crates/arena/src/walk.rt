// Ways through a tree in work memory. No word is trusted: where no tree is held an answer means nothing, and the call still ends.
ghost use Rattle.std.specs.Prelude.{◌<◌};
ghost use Rattle.arena.specs.internal.Walk.{Behind, Fan};

use crate::words::{Node, kind, next, word};

// Every place is below this number.
pub const PLACES: usize = 4194304;

// The place behind the subtree of the node at place a.
pub fn behind(w: &[u64], a: usize) -> usize
    requires { a < 8388608 }
    ensures { Behind w.now a result }
{
    let x = word(w, a);
    match kind(x) {
        Node::End => (a + 1) % PLACES,
        _ => next(x),
    }
}

// How many trees stand between place a and place end. Counted by hand, since it follows links from node to node: an
// iterator of these places would serve this loop and one other that writes no word, and would be longer than both.
pub fn fan(w: &[u64], a: usize, end: usize) -> usize
    requires { a < 8388608 }
    ensures { Fan w.now a end result }
{
    let mut count = 0;
    let mut at = a;
    while at < end {
        let next = behind(w, at);
        if next <= at {
            return count;
        }
        count += 1;
        at = next;
    }
    count
}
