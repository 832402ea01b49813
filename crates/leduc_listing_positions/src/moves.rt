// The cards or the actions of a spot. Kept as an array with its length, since a spot is Copy, which the library's ArrayVec isn't.
ghost use Rattle.std.specs.Prelude.{◌≡◌, ◌≤◌, ◌<◌, ◌-◌, [], ◌∷◌, ◌++◌, length, take, slice_get};

// At most N bytes: so many from the array's first on.
#[derive(Clone, Copy)]
pub struct Moves<const N: usize> {
    bytes: [u8; N],
    count: usize,
    ghost within: { count ≤ length bytes },
}

impl<const N: usize> Moves<N> {
    ghost use Rattle.leduc_listing_positions.specs.internal.Moves.{items};

    // None.
    #[tactic(auto, unfolding(crate::specs::internal::Moves::items))]
    pub fn new() -> Self
        ensures { items result ≡ [] }
    {
        Moves {
            bytes: [0; N],
            count: 0,
        }
    }

    // How many there are.
    pub fn len(&self) -> usize
        ensures value { result ≡ length (items self.now) }
        ensures fits { result ≤ N }
    {
        self.as_slice().len()
    }

    // They, in the order in which they came.
    #[tactic(auto, unfolding(crate::specs::internal::Moves::items))]
    pub fn as_slice(&self) -> &[u8]
        ensures value { result.now ≡ items self.now }
        ensures fits { length result.now ≤ N }
    {
        &self.bytes[..self.count]
    }

    // One more, behind them.
    #[tactic(auto, unfolding(crate::specs::internal::Moves::items))]
    pub fn push(&mut self, byte: u8)
        requires { length (items self.old) < N }
        ensures { items self.new ≡ items self.old ++ byte ∷ [] }
    {
        self.bytes[self.count] = byte;
        self.count += 1;
    }

    // The last, taken off; none where there is none.
    #[tactic(auto, unfolding(crate::specs::internal::Moves::items))]
    pub fn pop(&mut self) -> Option<u8>
        ensures rest { items self.new ≡ take (length (items self.old) - 1) (items self.old) }
        ensures value { result ≡ slice_get (items self.old) (length (items self.old) - 1) }
    {
        self.count = self.count.checked_sub(1)?;
        Some(self.bytes[self.count])
    }
}
