// The reply as a table: D parts on the choice in each set of the seat, 0 on its other actions, and the given table's parts in the other seats' sets.
#![tactic(auto)]

ghost use Rattle.std.specs.Prelude.{◌≡◌, cond, ◌≤◌, eqb};
ghost use Rattle.std.proofs.lemmas.List.Edits.{sets};
ghost use Rattle.game_tree.specs.Table.{listed};
ghost use Rattle.units_values.specs.internal.Valued.{Walkable};
ghost use Rattle.units_reply.specs.internal.Laid.{LaidSet, Laid};

use arena::words::{actions, actor, put, word};
use arena_walks::{DEPTH, Search};
use units_values::values::choose;

// Writes a set's own part of the table from place at on.
fn write_part(out: &mut [u8], at: usize, part: &[u8])
    requires { at ≤ 8388608 }
    ensures { out.new ≡ sets out.old at part.now }
{
    for (action, &entry) in part.iter().enumerate() {
        put(out, at + action, entry);
    }
}

// Writes a set's entries from place at on: all parts on the choice of so many actions.
fn write_choice(out: &mut [u8], at: usize, count: usize, choice: usize, parts: usize)
    requires { (at ≤ 8388608) × (count ≤ 3) × (parts ≤ 64) }
    ensures { out.new ≡ sets out.old at (listed count (λ a. cond (eqb a choice) parts 0)) }
{
    for action in 0..count {
        // `as`: at most 64 parts; try_from would have a failure that never comes.
        let part = if action == choice { parts as u8 } else { 0 };
        put(out, at + action, part);
    }
}

// Writes the entries of the set whose first entry is given and whose members have words like x.
fn write_set(w: &mut [u64], search: &Search<&[u8]>, parts: usize, out: &mut [u8], x: u64, at: usize)
    requires { Walkable at search.now.walk.seat 32 × (parts ≤ 64) }
    ensures { LaidSet search.now.walk.others.now x at search.now.walk.seat parts search.now.heads search.now.walk.reach search.now.kept
        w.old w.new out.old out.new }
{
    let count = actions(x);
    if actor(x) == search.walk.seat {
        let choice = choose(w, search, at, count, DEPTH);
        write_choice(out, at, count, choice, parts);
        return;
    }
    let end = at + count;
    if search.walk.others.len() < end {
        return;
    }
    write_part(out, at, &search.walk.others[at..end]);
}

// Writes the reply: the entries of so many sets, one set after the other. That a byte holds the parts is a clause, here and above, and no type: Table asks for
// a part at least besides, which the reply does not need.
pub fn write_reply(
    w: &mut [u64],
    search: &Search<&[u8]>,
    parts: usize,
    out: &mut [u8],
    count: usize,
)
    requires { Walkable 0 search.now.walk.seat 32 × (parts ≤ 64) × (count ≤ 16384) }
    ensures { Laid search.now.walk.others.now count search.now.walk.seat parts search.now.heads search.now.walk.reach search.now.kept
        w.old w.new out.old out.new }
{
    let mut at = 0;
    for _set in 0..count {
        let x = word(w, search.first_member(w, at));
        write_set(w, search, parts, out, x, at);
        at += actions(x);
    }
}
