// What a key writes into lent memory.
ghost use Rattle.std.specs.Prelude.{◌≡◌, ◌+◌, ◌≤◌, ◌<◌, length};
ghost use Rattle.refusals.specs.Outcomes.{written};
ghost use Rattle.leduc_rules.specs.Rules.{key};

use leduc_rules::hand::Hand;
use prelude::copy_at;

// What a key shows where no public card lies: a byte, as a key is bytes.
const NONE: u8 = 255;

// The key of a seat: its number, its card, the public card, and each round's length and actions.
pub fn write_key(hand: &Hand, agent: usize, out: &mut [u8])
    requires { (agent < length hand.now.cards.now) × (length hand.now.cards.now ≤ 2) × (length hand.now.first.now ≤ 4) × (length hand.now.second.now ≤ 4)
        × (5 + length hand.now.first.now + length hand.now.second.now ≤ length out.old) }
    ensures { out.new ≡ written 0 (key hand.now.cards.now hand.now.public hand.now.first.now hand.now.second.now agent) out.old }
{
    let public = hand.public.unwrap_or(NONE);
    let acted1 = hand.first.len();
    // Casts of a seat and of lengths of at most 4: u8::try_from would have an error that never comes.
    let head = [agent as u8, hand.cards[agent], public, acted1 as u8];
    let middle = [hand.second.len() as u8];
    copy_at(out, 0, &head);
    copy_at(out, 4, hand.first);
    copy_at(out, 4 + acted1, &middle);
    copy_at(out, 5 + acted1, hand.second);
}
