// The comparison of two quotients of whole numbers, by cross products of 128 bits in halves of 64.
#![tactic(auto)]

ghost use Rattle.std.specs.Prelude.{◌≡◌, ◌+◌, ◌*◌, ◌^◌};
ghost use Rattle.comparison.specs.Order.{compared_quotients, number_of};

use std::cmp::Ordering;

// A number of 128 bits, which the order of its fields compares: the upper half first.
#[derive(Clone, Copy, PartialEq, Eq, PartialOrd, Ord)]
pub struct Wide {
    pub high: u64,
    pub low: u64,
}

// 2^32: a number of 64 bits has two digits in this base.
const BASE: u64 = 4294967296;

// The whole product of two numbers, by digits of 32 bits: column by column, each with the carry of the one before it. Kept in
// halves of 64 bits, and not in a u128, since the demand for this comparison names the halves.
#[tactic(auto, using(crate::proofs::Columns::whole))]
pub fn product(a: u64, b: u64) -> Wide
    ensures { result.high * 2 ^ 64 + result.low ≡ a * b }
{
    let a0 = a % BASE;
    let a1 = a / BASE;
    let b0 = b % BASE;
    let b1 = b / BASE;
    let lowest = a0 * b0;
    let middle = a1 * b0 + lowest / BASE;
    let next = a0 * b1 + middle % BASE;
    Wide {
        high: a1 * b1 + middle / BASE + next / BASE,
        low: next % BASE * BASE + lowest % BASE,
    }
}

// How NashConv a of u units stands to NashConv b of v units: as a × v does to b × u.
pub fn compare(a: u64, u: u64, b: u64, v: u64) -> Ordering
    ensures { result ≡ compared_quotients a u b v }
{
    product(a, v).cmp(&product(b, u))
}

// The number of a comparison for C, to which an enum does not cross: -1, 0 or 1, by `as`, for which Ordering has no From.
pub fn number(comparison: Ordering) -> i64
    ensures { result ≡ number_of comparison }
{
    comparison as i64
}
