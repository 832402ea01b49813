// Six sums by value, modulo 2^64: one for each seat.
ghost use Rattle.std.specs.Prelude.{◌≡◌, ◌+◌, ◌*◌, ◌<◌, replicate, slice_index};
ghost use Rattle.arena.specs.internal.Words.{byte_of};
ghost use Rattle.units.specs.internal.Sums.{wrapped};
ghost use Rattle.units.specs.internal.Readable.{UNITS};

use arena::payoffs::lifted;

#[derive(Clone, Copy)]
pub struct Sums {
    pub of: [u64; 6],
}

impl Sums {
    // No sum yet.
    pub fn none() -> Sums
        ensures { result.of ≡ replicate 6 0 }
    {
        Sums { of: [0; 6] }
    }

    // These sums and others.
    pub fn plus(self, others: Sums) -> Sums
        ensures { result.of ≡ wrapped (λ i. slice_index self.of i + slice_index others.of i) }
    {
        let mut of = [0; 6];
        for seat in 0..6 {
            of[seat] = self.of[seat].wrapping_add(others.of[seat]);
        }
        Sums { of }
    }

    // What u units of the end with word x are worth.
    pub fn earned(x: u64, u: u64) -> Sums
        requires { u < UNITS }
        ensures { result.of ≡ wrapped (λ i. u * byte_of x i) }
    {
        let mut of = [0; 6];
        for seat in 0..6 {
            of[seat] = u * lifted(x, seat);
        }
        Sums { of }
    }
}
