// Numbers in f64 for a walk over a tree in work memory: a float in a word, a payoff, a chance weight, an entry of a set.
#![tactic(auto)]

ghost use Rattle.std.specs.Prelude.{◌≡◌, ◌<◌, get_or, set};
ghost use Rattle.std.specs.Float.{binary64};
ghost use Rattle.std.specs.Float.Ieee.{to_bits, of_bits, of_int};
ghost use Rattle.arena.specs.internal.Words.{payoff_of};
ghost use Rattle.game_tree_f64.specs.Values.{plus, times, weight};

use arena::payoffs::payoff;
use arena::words::{put, word};

// x's pattern; of a NaN one fixed pattern, since bits are undefined at a NaN.
fn pack(x: f64) -> u64
    ensures { (result ≡ to_bits binary64 x) × (of_bits binary64 (to_bits binary64 x) ≡ x) }
{
    if x.is_nan() {
        0x7FF8_0000_0000_0000
    } else {
        x.to_bits()
    }
}

// The float of any word: each NaN pattern is NaN.
fn unpack(x: u64) -> f64
    ensures { result ≡ of_bits binary64 x }
{
    if 0x7FF0_0000_0000_0000 < x % 0x8000_0000_0000_0000 {
        f64::NAN
    } else {
        f64::from_bits(x)
    }
}

// The float at place i.
pub fn float_at(w: &[u64], i: usize) -> f64
    ensures { result ≡ of_bits binary64 (get_or w.now i 0) }
{
    unpack(word(w, i))
}

// Writes the float x at place i, where there is one.
pub fn put_float(w: &mut [u64], i: usize, x: f64)
    ensures { (w.new ≡ set w.old i (to_bits binary64 x)) × (of_bits binary64 (to_bits binary64 x) ≡ x) }
{
    put(w, i, pack(x));
}

// The payoff of a seat at the end with word x.
pub fn payoff_of(x: u64, seat: usize) -> f64
    requires { seat < 6 }
    ensures { result ≡ of_int binary64 (payoff_of x seat) }
{
    // `as`: f64 has no From of i64.
    payoff(x, seat) as f64
}

// The weight of each of so many chance children.
pub fn weight(fan: usize) -> f64
    ensures { fan < 4294967296 → result ≡ weight fan }
{
    // `as`: a remainder below 2^32, and u32 has no From of usize.
    let count = (fan % 4294967296) as u32;
    1.0 / f64::from(count)
}

// The sum so far, and an action's entry × what the action gives.
pub fn weighed(entry: f64, sum: f64, gain: f64) -> f64
    ensures { result ≡ plus sum (times entry gain) }
{
    sum + entry * gain
}

// The sum so far, and the reach at a place × what is given behind it.
pub fn reached(w: &[u64], place: usize, sum: f64, gain: f64) -> f64
    ensures { result ≡ plus sum (times (of_bits binary64 (get_or w.now place 0)) gain) }
{
    sum + float_at(w, place) * gain
}
