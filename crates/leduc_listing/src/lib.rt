// The listing of Leduc's sets: a walk over cards and actions, which writes a record at each node that is the first of its set.
#![tactic(auto)]

ghost use Rattle.std.specs.Prelude.{◌≡◌, ◌+◌, ◌≤◌, ◌<◌, length};
ghost use Rattle.std.proofs.lemmas.List.Edits.{sets};
ghost use Rattle.listing_records.specs.internal.Written.{HasRoom, Wrote};
ghost use Rattle.leduc_listing_positions.specs.internal.Moves.{items};
ghost use Rattle.leduc_listing_positions.specs.internal.Spots.{placed, made, Room, undone};
ghost use Rattle.leduc_listing.specs.Facts.{listing_of_leduc};
ghost use Rattle.leduc_listing.specs.internal.Walk.{node_records, is_move, move_bound, moved, next_records};

use leduc_betting::betting::{is_legal, options_of};
use leduc_betting::{DECK, RAISE};
use leduc_listing_positions::Made;
use leduc_listing_positions::spot::Spot;
use listing_records::{Record, Writer};
use prelude::contains;

// The moves of a hand after its first card: a card, the public card, and 8 actions.
const LATER_MOVES: usize = 10;

// The record of a spot, if a seat acts there and it is the first of its set.
fn write_first(to: &mut Writer, spot: &Spot)
    requires room { Room spot.now 1 }
    requires bytes { HasRoom to.old (node_records (placed spot.now)) }
    ensures { Wrote to.old to.new (node_records (placed spot.now)) }
{
    let hand = spot.hand();
    if !hand.is_live() || !spot.is_first() {
        return;
    }
    // Numbers become bytes by `as`, since u8 has no From of a usize.
    let key = spot.key();
    let legal = options_of(hand.in_play());
    Record {
        seat: hand.turn() as u8,
        key: key.as_slice(),
        public: spot.public,
        cards: hand.cards,
        legal: legal.len() as u8,
    }
    .put(to);
}

// Whether a number is a move: a card that is left while one is due, else a legal action.
fn is_move(spot: &Spot, a: usize) -> bool
    requires { length (items spot.now.cards) ≤ 2 }
    ensures { result ≡ is_move (placed spot.now) a }
{
    let hand = spot.hand();
    if hand.is_due() {
        a < usize::from(DECK) && !contains(hand.seen().as_slice(), a)
    } else {
        is_legal(hand.in_play(), a)
    }
}

// The numbers of a spot's moves are below this.
fn move_bound(spot: &Spot) -> usize
    ensures { (result ≡ move_bound (placed spot.now)) × (result ≤ 6) }
{
    let hand = spot.hand();
    if hand.is_due() {
        usize::from(DECK)
    } else if hand.is_over() {
        0
    } else {
        usize::from(RAISE) + 1
    }
}

// Makes a move.
fn make(spot: &mut Spot, a: u8) -> Made
    requires { Room spot.old 1 }
    ensures moved { placed spot.new ≡ moved (placed spot.old) a }
    ensures back { undone result (placed spot.new) ≡ placed spot.old }
    ensures few { (length (items spot.new.cards) ≤ 2) × (made spot.new ≤ made spot.old + 1) }
{
    if spot.hand().is_due() {
        spot.deal(a)
    } else {
        spot.act(a)
    }
}

// The records after the moves of a spot, lower ones first: the node, then what follows its moves; left is how many moves may come.
fn list_moves(to: &mut Writer, spot: &mut Spot, left: usize)
    requires room { Room spot.old (left + 1) }
    requires bytes { HasRoom to.old (next_records left (placed spot.old) (move_bound (placed spot.old))) }
    ensures records { Wrote to.old to.new (next_records left (placed spot.old) (move_bound (placed spot.old))) }
    ensures same { placed spot.new ≡ placed spot.old }
{
    if left == 0 {
        return;
    }
    for a in 0..move_bound(spot) {
        if is_move(spot, a) {
            // By `as`, since u8 has no From of a usize.
            let made = make(spot, a as u8);
            write_first(to, spot);
            list_moves(to, spot, left - 1);
            spot.take_back(made);
        }
    }
}

// The listing of Leduc's sets, from the start of an output.
pub fn list_sets(out: &mut [u8])
    requires { length listing_of_leduc ≤ length out.old }
    ensures { out.new ≡ sets out.old 0 listing_of_leduc }
{
    let mut to = Writer::new(out);
    list_moves(&mut to, &mut Spot::start(), LATER_MOVES);
}
