// What both games share: tests, sums and lists over the numbers below a bound (in specs/, with laws in proofs/), and the copying and testing of bytes.
#![tactic(auto)]

ghost use Rattle.std.specs.Prelude.{◌≡◌, ◌+◌, ◌≤◌, not, eqb, ltb, length, get_or, take};
ghost use Rattle.std.specs.List.{list_any};
ghost use Rattle.std.proofs.Math.Seq.{paste};
ghost use Rattle.prelude.specs.Finite.{some, has, those};
ghost use Rattle.prelude.specs.internal.Places.{at_place};

// The bytes of a source go to an output from a place on; nothing else changes there.
pub fn copy_at(out: &mut [u8], at: usize, source: &[u8])
    requires { at + length source.now ≤ length out.old }
    ensures { out.new ≡ paste out.old at source.now (length source.now) }
{
    out[at..at + source.len()].copy_from_slice(source);
}

// Whether a number is among the bytes.
pub fn contains(bytes: &[u8], x: usize) -> bool
    ensures { result ≡ list_any (λ b. eqb b x) bytes.now }
{
    bytes.iter().any(|b| usize::from(*b) == x)
}

// Whether a byte is above a bound.
pub fn any_above(bytes: &[u8], bound: usize) -> bool
    ensures { result ≡ list_any (λ b. ltb bound b) bytes.now }
{
    bytes.iter().any(|b| bound < usize::from(*b))
}

// Whether a byte stands there twice.
pub fn repeats(bytes: &[u8]) -> bool
    ensures { result ≡ some (length bytes.now) (λ i. has (get_or bytes.now i 0) (take i bytes.now)) }
{
    for (i, b) in bytes.iter().enumerate() {
        if contains(&bytes[..i], usize::from(*b)) {
            return true;
        }
    }
    false
}

// Of the numbers below a bound that are not among the bytes, in ascending order, the one at a place; none where there are not so many.
pub fn nth_left(bytes: &[u8], bound: usize, place: usize) -> Option<usize>
    ensures { result ≡ at_place (those bound (λ c. not (has c bytes.now))) place }
{
    (0..bound).filter(|x| !contains(bytes, *x)).nth(place)
}
