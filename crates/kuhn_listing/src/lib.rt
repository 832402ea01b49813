// The listing of Kuhn's sets: a walk over the deals and then the histories, which writes a record at each node that is the first of its set.
#![tactic(auto)]

ghost use Rattle.std.specs.Prelude.{◌≡◌, [], ◌∷◌, ◌+◌, ◌-◌, ◌≤◌, ◌<◌, length, get_or};
ghost use Rattle.std.proofs.lemmas.List.Edits.{sets};
ghost use Rattle.prelude.specs.Finite.{some};
ghost use Rattle.kuhn_tree.specs.Order.{histories, lowest_but, first};
ghost use Rattle.listing_records.specs.internal.Written.{HasRoom, Wrote};
ghost use Rattle.kuhn_listing.specs.Facts.{listing_of_kuhn};
ghost use Rattle.kuhn_listing.specs.internal.Walk.{records_of, hand_records, deal_records, InDeck};

use arrayvec::ArrayVec;
use kuhn_betting::{BET, PASS, is_terminal};
use listing_records::{KEY, Record, Writer};
use prelude::contains;

// The legal count of every set.
const LEGAL: u8 = 2;

// A key: seat, card, history.
fn key_of(seat: u8, card: u8, history: &[u8]) -> ArrayVec<u8, KEY>
    requires { length history.now ≤ 11 }
    ensures { result.items ≡ seat ∷ card ∷ history.now }
{
    let mut key = ArrayVec::new();
    key.push(seat);
    key.push(card);
    for action in history {
        key.push(*action);
    }
    key
}

// A full deal of up to six seats: a card of the deck for each.
#[derive(Clone, Copy)]
struct Deal<'a> {
    cards: &'a [u8],
    ghost seats: { (1 ≤ length cards.now) × (length cards.now ≤ 6) },
    ghost in_deck: { InDeck (length cards.now) (length cards.now) cards.now },
}

impl Deal<'_> {
    // Whether seat q was dealt the lowest card then left, but for card x.
    fn lowest_but(&self, x: usize, q: usize) -> bool
        requires { q < length self.now.cards.now }
        ensures { result ≡ lowest_but (length self.now.cards.now) self.now.cards.now x q }
    {
        (0..usize::from(self.cards[q])).all(|y| y == x || contains(&self.cards[..q], y))
    }

    // Whether the nodes at which a seat acts are the first of their sets: every other seat was dealt the lowest card then left, but for this seat's.
    fn is_first(&self, seat: usize) -> bool
        requires { seat < length self.now.cards.now }
        ensures { result ≡ first (length self.now.cards.now) self.now.cards.now seat }
    {
        let x = usize::from(self.cards[seat]);
        (0..self.cards.len()).all(|q| q == seat || self.lowest_but(x, q))
    }

    // Whether that is so of some seat.
    fn any_first(&self) -> bool
        ensures { result ≡ some (length self.now.cards.now) (first (length self.now.cards.now) self.now.cards.now) }
    {
        (0..self.cards.len()).any(|seat| self.is_first(seat))
    }

    // The record of a node, if it is the first of its set.
    fn write_first(&self, to: &mut Writer, history: &[u8])
        requires few { length history.now ≤ 11 }
        requires room { HasRoom to.old (records_of (length self.now.cards.now) self.now.cards.now (history.now ∷ [])) }
        ensures { Wrote to.old to.new (records_of (length self.now.cards.now) self.now.cards.now (history.now ∷ [])) }
    {
        let seat = history.len() % self.cards.len();
        if !self.is_first(seat) {
            return;
        }
        // By `as`, since u8 has no From of a usize.
        let key = key_of(seat as u8, self.cards[seat], history);
        Record {
            seat: seat as u8,
            key: key.as_slice(),
            public: None,
            cards: self.cards,
            legal: LEGAL,
        }
        .put(to);
    }

    // The records from a history on, with at most so many actions left: the node, then what follows a pass, then what follows a bet.
    fn list_hand(&self, to: &mut Writer, history: &mut ArrayVec<u8, 11>, left: usize)
        requires few { length history.old.items + left ≤ 11 }
        requires room { HasRoom to.old (hand_records (length self.now.cards.now) self.now.cards.now left history.old.items) }
        ensures records { Wrote to.old to.new (hand_records (length self.now.cards.now) self.now.cards.now left history.old.items) }
        ensures same { history.new.items ≡ history.old.items }
    {
        if left == 0 || is_terminal(history.as_slice(), self.cards.len()) {
            return;
        }
        self.write_first(to, history.as_slice());
        history.push(PASS);
        self.list_hand(to, history, left - 1);
        history.pop();
        history.push(BET);
        self.list_hand(to, history, left - 1);
        history.pop();
    }

    // The records below it: none, if no seat's nodes are the first of their sets.
    fn list(&self, to: &mut Writer)
        requires { HasRoom to.old (records_of (length self.now.cards.now) self.now.cards.now (histories (length self.now.cards.now))) }
        ensures { Wrote to.old to.new (records_of (length self.now.cards.now) self.now.cards.now (histories (length self.now.cards.now))) }
    {
        if self.any_first() {
            self.list_hand(to, &mut ArrayVec::new(), 2 * self.cards.len() - 1);
        }
    }
}

// The records below a deal to the first of n seats, lower cards first. n stays a number with its bounds beside it, as kuhn_betting says of it: a type would be
// made for this call and taken apart in it.
fn list_deals(to: &mut Writer, n: usize, cards: &mut ArrayVec<u8, 6>)
    requires deal { (1 ≤ n) × (n ≤ 6) × (length cards.old.items ≤ n) × InDeck n (length cards.old.items) cards.old.items }
    requires room { HasRoom to.old (deal_records n (n - length cards.old.items) cards.old.items) }
    ensures records { Wrote to.old to.new (deal_records n (n - length cards.old.items) cards.old.items) }
    ensures same { cards.new.items ≡ cards.old.items }
{
    if cards.len() == n {
        let deal = Deal {
            cards: cards.as_slice(),
        };
        return deal.list(to);
    }
    for card in 0..n + 1 {
        if !contains(cards.as_slice(), card) {
            // By `as`, since u8 has no From of a usize.
            cards.push(card as u8);
            list_deals(to, n, cards);
            cards.pop();
        }
    }
}

// The listing of Kuhn's sets with n seats, from the start of an output.
pub fn list_sets(out: &mut [u8], n: usize)
    requires { (1 ≤ n) × (n ≤ 6) × (length (listing_of_kuhn n) ≤ length out.old) }
    ensures { out.new ≡ sets out.old 0 (listing_of_kuhn n) }
{
    let mut to = Writer::new(out);
    list_deals(&mut to, n, &mut ArrayVec::new());
}
