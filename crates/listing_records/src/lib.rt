// The bytes of a listing: one record of 24 bytes.
#![tactic(auto)]

ghost use Rattle.std.specs.Prelude.{◌≡◌, [], ◌∷◌, ◌++◌, ◌+◌, ◌≤◌, length, unwrap_or};
ghost use Rattle.listing_records.specs.Listing.{padded};
ghost use Rattle.listing_records.specs.internal.Written.{Wrote};

use prelude::copy_at;

// The bytes of a record, and of the key and the cards in it.
pub const RECORD: usize = 24;

pub const KEY: usize = 13;

pub const CARDS: usize = 6;

// What a record says of a set: who acts, its key, the public card, the cards of the set's first node, and how many actions are legal.
#[derive(Drop)]
pub struct Record<'a> {
    pub seat: u8,
    pub key: &'a [u8],
    pub public: Option<u8>,
    pub cards: &'a [u8],
    pub legal: u8,
}

// Bytes in N places. Those that are left are 0.
fn padded<const N: usize>(bytes: &[u8]) -> [u8; N]
    requires { length bytes.now ≤ N }
    ensures { result ≡ padded N bytes.now }
{
    let mut whole = [0u8; N];
    copy_at(&mut whole, 0, bytes);
    whole
}

// An output, and the place behind what was written to it.
#[derive(Drop)]
pub struct Writer<'a> {
    pub out: &'a mut [u8],
    pub at: usize,
}

impl<'a> Writer<'a> {
    // Writes from the start of an output on.
    pub fn new(out: &'a mut [u8]) -> Writer<'a>
        ensures output { result.out.ghost_name ≡ out.entry.ghost_name }
        ensures start { (result.out.now ≡ out.old) × (result.at ≡ 0) }
    {
        Writer { out, at: 0 }
    }
}

impl Record<'_> {
    // Writes it: seat, key length, key, public card or 255, cards, legal count, 0.
    pub fn put(&self, to: &mut Writer)
        requires fits { (length self.now.key.now ≤ 13) × (length self.now.cards.now ≤ 6) }
        requires room { to.old.at + 24 ≤ length to.old.out.now }
        ensures { Wrote to.old to.new (self.now.seat ∷ length self.now.key.now ∷ padded 13 self.now.key.now
            ++ (unwrap_or self.now.public 255 ∷ padded 6 self.now.cards.now ++ (self.now.legal ∷ 0 ∷ []))) }
    {
        let at = to.at;
        to.out[at] = self.seat;
        // By `as`, since u8 has no From of a usize.
        to.out[at + 1] = self.key.len() as u8;
        copy_at(to.out, at + 2, &padded::<KEY>(self.key));
        to.out[at + 15] = self.public.unwrap_or(255);
        copy_at(to.out, at + 16, &padded::<CARDS>(self.cards));
        to.out[at + 22] = self.legal;
        to.out[at + 23] = 0;
        to.at = at + RECORD;
    }
}
