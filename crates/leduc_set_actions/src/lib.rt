// The actions of Leduc's sets, in set order.
#![tactic(auto)]

ghost use Rattle.std.specs.Prelude.{◌≡◌, ◌≤◌, ◌<◌, get_or};
ghost use Rattle.leduc_tree.specs.Turns.{actions_in_order};

// Kept as bits: 15 words stand for 936 sets.
// 64 sets to a word, the first at its lowest bit, which is 1 where a set has three actions.
const THREES: [u64; 15] = [
    0x51428A28A5451450,
    0x1451450A28A29514,
    0x924532451245248A,
    0x4926491249248922,
    0x2493248924924492,
    0x9249924492492249,
    0x8514514A8A28A124,
    0xA28A1451452A28A2,
    0x9249248A28A28A28,
    0x925124A524A24924,
    0x1451451449284928,
    0x4924492492492A49,
    0x124924924A924492,
    0x492492A491249249,
    0x0000004924924492,
];

// How many actions a set has.
pub fn actions(set: usize) -> usize
    requires { set < 936 }
    ensures { (result ≡ get_or actions_in_order set 0) × (result ≤ 3) }
{
    let bits = THREES[set / 64] >> (set % 64);
    // A cast: usize has no From for u64.
    2 + (bits % 2) as usize
}
