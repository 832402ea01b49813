// The word of a node, and reading, writing and clearing words. Numbers go into a word and out of it by `as`, since std has no From between usize and u64.
// Places are plain numbers, of which the makers of words ask that 21 bits hold them: they are sums elsewhere, and a type would be taken apart at each.
ghost use Rattle.std.specs.Prelude.{◌≡◌, ◌+◌, ◌*◌, ◌<◌, ◌≤◌, ◌↔◌, get_or, set};
ghost use Rattle.arena.specs.internal.Index.{Cleared};
ghost use Rattle.arena.specs.internal.Words.{END, CHANCE, DECISION, kind_of, actor_of, actions_of, set_of, next_of, later_of, decision_word, chance_word, PLACES};

// The kinds of nodes.
#[derive(Clone, Copy, Debug, PartialEq, Eq)]
pub enum Node {
    End,
    Chance,
    Decision,
    Unknown,
}

// Places of the tree in memory: a word has 21 bits for one.
pub const PLACES: u64 = 2097152;

// What the node with word x is; no word of a tree is of an unknown kind.
pub fn kind(x: u64) -> Node
    ensures end { (result ≡ Node.End) ↔ (kind_of x ≡ END) }
    ensures chance { (result ≡ Node.Chance) ↔ (kind_of x ≡ CHANCE) }
    ensures decision { (result ≡ Node.Decision) ↔ (kind_of x ≡ DECISION) }
{
    match x % 4 {
        0 => Node::End,
        1 => Node::Chance,
        2 => Node::Decision,
        _ => Node::Unknown,
    }
}

// The seat that acts.
pub fn actor(x: u64) -> usize
    ensures { result ≡ actor_of x }
{
    (x / 4 % 8) as usize
}

// How many actions it has.
pub fn actions(x: u64) -> usize
    ensures { result ≡ actions_of x }
{
    (x / 32 % 4) as usize
}

// Its set.
pub fn set(x: u64) -> usize
    ensures { result ≡ set_of x }
{
    (x / 128 % 16384) as usize
}

// The place behind the node's subtree.
pub fn next(x: u64) -> usize
    ensures { result ≡ next_of x }
{
    (x / PLACES % PLACES) as usize
}

// The next member of its set; 0 at the last, as the word has it: no member stands at place 0 behind another.
pub fn later(x: u64) -> usize
    ensures { result ≡ later_of x }
{
    (x / 4398046511104 % PLACES) as usize
}

// The word of a decision.
pub fn decision(actor: usize, actions: usize, set: usize, next: usize, later: usize) -> u64
    requires { (actor < 8) × (actions < 4) × (set < 16384) × (next < PLACES) × (later < PLACES) }
    ensures { result ≡ decision_word actor actions set next later }
{
    2 + 4 * actor as u64
        + 32 * actions as u64
        + 128 * set as u64
        + PLACES * next as u64
        + 4398046511104 * later as u64
}

// The word of a chance node.
pub fn chance(next: usize) -> u64
    requires { next < PLACES }
    ensures { result ≡ chance_word next }
{
    1 + PLACES * next as u64
}

// The word at place i, 0 where there is none.
pub fn word(w: &[u64], i: usize) -> u64
    ensures { result ≡ get_or w.now i 0 }
{
    if i < w.len() { w[i] } else { 0 }
}

// Writes x at place i, where there is one: a word of the memory, or a byte of a table.
pub fn put<T: Copy>(w: &mut [T], i: usize, x: T)
    ensures { w.new ≡ set w.old i x }
{
    if i < w.len() {
        w[i] = x;
    }
}

// Writes 0 at places lo to hi, as far as there are any.
pub fn clear(w: &mut [u64], lo: usize, hi: usize)
    requires { lo ≤ hi }
    ensures { Cleared lo hi w.old w.new }
{
    let end = hi.min(w.len());
    if lo < end {
        w[lo..end].fill(0);
    }
}
