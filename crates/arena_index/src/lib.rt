// The index of a tree in work memory: each set gets its first entry, and its members are linked.
#![tactic(auto)]

ghost use Rattle.std.specs.Prelude.{◌≡◌, ◌≤◌, ◌<◌};
ghost use Rattle.arena_index.specs.internal.Indexing.{Numbers, Links, Indexes, Met, pushed, linked};
ghost use Rattle.arena.specs.internal.Words.{PLACES};

use arena::words::{Node, PLACES, actions, actor, decision, kind, next, put, set, word};

// Where an indexed tree stands: so many nodes, behind them for each code its set's first entry, and from heads on for each first entry the set's first member.
#[derive(Clone, Copy)]
struct Layout {
    nodes: usize,
    heads: usize,
    ghost within: { (nodes ≤ PLACES) × (heads ≤ 4194304) },
}

impl Layout {
    // Enters the set of word x, if it is a decision's and new, with the next entry; the entry after it. Numbers become words and places by `as`, here and
    // below, since std has no From between usize and u64.
    fn meet(self, w: &mut [u64], x: u64, entry: usize) -> usize
        requires { entry ≤ 8388608 }
        ensures { Met self.nodes x entry w.old w.new result }
    {
        let Node::Decision = kind(x) else {
            return entry;
        };
        let at = self.nodes + set(x);
        if word(w, at) != 0 {
            return entry;
        }
        put(w, at, entry as u64 + 1);
        entry + actions(x)
    }

    // Gives each set its first entry, in the order of the nodes.
    fn number(self, w: &mut [u64])
        ensures { Numbers self.nodes w.old w.new }
    {
        let mut entry = 0;
        for a in 0..self.nodes {
            let x = word(w, a);
            entry = self.meet(w, x, entry);
        }
    }

    // Puts the node at place a, whose word is x, before the members that stand at its set's first entry.
    fn push(self, w: &mut [u64], a: usize, x: u64, entry: usize)
        requires { entry < 16384 }
        ensures { w.new ≡ pushed self.heads a x entry w.old }
    {
        let head = self.heads + entry;
        let later = word(w, head) % PLACES;
        put(
            w,
            a,
            decision(actor(x), actions(x), entry, next(x), later as usize),
        );
        put(w, head, a as u64);
    }

    // Puts the node at place a, if it is a decision, before the members of its set.
    fn link_node(self, w: &mut [u64], a: usize)
        ensures { w.new ≡ linked self.nodes self.heads a w.old }
    {
        let x = word(w, a);
        let Node::Decision = kind(x) else {
            return;
        };
        let known = word(w, self.nodes + set(x)) as usize;
        if known == 0 {
            return;
        }
        self.push(w, a, x, (known - 1) % 16384);
    }

    // Links the members of each set, from the last node to the first.
    fn link(self, w: &mut [u64])
        ensures { Links self.nodes self.heads w.old w.new }
    {
        for a in (0..self.nodes).rev() {
            self.link_node(w, a);
        }
    }
}

// Indexes a tree of so many nodes, whose sets have codes below codes.
pub fn index(w: &mut [u64], nodes: usize, codes: usize)
    requires { (nodes ≤ PLACES) × (codes ≤ 16384) }
    ensures { Indexes nodes codes w.old w.new }
{
    let layout = Layout {
        nodes,
        heads: nodes + codes,
    };
    layout.number(w);
    layout.link(w);
}
