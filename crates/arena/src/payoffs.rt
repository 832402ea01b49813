// The payoffs of an end, a byte each: 64 is 0. The one cast is by `as`, since std has no From between i64 and u64. A seat stays a number, of which each
// function asks that the word has a byte for it: a type would be made for each call and taken apart in it.
ghost use Rattle.std.specs.Prelude.{◌≡◌, ◌<◌};
ghost use Rattle.arena.specs.internal.Words.{byte_of, payoff_of};

// The payoff of a seat at an end.
pub fn payoff(x: u64, seat: usize) -> i64
    requires { seat < 6 }
    ensures { result ≡ payoff_of x seat }
{
    let bits = x / 4 >> (8 * seat);
    (bits % 128) as i64 - 64
}

// The same, lifted by 64.
pub fn lifted(x: u64, seat: usize) -> u64
    requires { seat < 6 }
    ensures { (result ≡ byte_of x seat) × (result < 128) }
{
    let shifted = x / 4 >> (8 * seat);
    shifted % 128
}
