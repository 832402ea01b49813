// Memory as a record gives it, and as it is before a call.

ghost use Rattle.std.specs.Prelude.{◌≡◌, ◌≤◌, IfOk, take, vec_len};

use std::alloc::{AllocError, Global};

// The words of work memory, at most, that a call is lent.
pub const WORDS: usize = 113491;

// As much of `asked` as there is.
pub fn least(asked: usize, there: usize) -> usize
    ensures { result ≤ there }
{
    asked.min(there)
}

// What an output holds before each call.
pub fn untouched_bytes(bytes: &mut [u8]) {
    for (place, byte) in bytes.iter_mut().enumerate() {
        *byte = place.wrapping_add(200).to_le_bytes()[0];
    }
}

// What work memory holds before each call.
pub fn untouched_words(words: &mut [u64]) {
    for (place, word) in words.iter_mut().enumerate() {
        // By `as`: both have 64 bits, and u64 has no From of usize.
        *word = (place as u64).wrapping_add(200);
    }
}

// The first bytes, as many as are asked for and there: a position and a call have lengths beside their bytes, and those of a list may be too long.
pub fn first(bytes: &[u8], count: usize) -> &[u8]
    ensures { result.now ≡ take count bytes.now }
{
    bytes.get(..count).unwrap_or(bytes)
}

// An array of a position: the bytes that a record gives, and behind them the filling. The array begins at place `start` of the position's,
// and place p is filled with p + 1 times the number.
pub fn filled<const N: usize>(given: &[u8], fill: u8, start: u8) -> [u8; N] {
    let mut bytes = [0; N];
    let mut filling = fill.wrapping_mul(start);
    for (i, byte) in bytes.iter_mut().enumerate() {
        filling = filling.wrapping_add(fill);
        *byte = given.get(i).copied().unwrap_or(filling);
    }
    bytes
}

// So many bytes of output, as they are before a call.
pub fn output(alloc: Global, room: usize) -> Result<Vec<u8>, AllocError>
    ensures { IfOk result (λ bytes. vec_len bytes ≡ room) }
{
    let mut bytes = vec![in alloc; 0; room]?;
    untouched_bytes(&mut bytes);
    Ok(bytes)
}

// So many words of work memory, as they are before a call.
pub fn work(alloc: Global, words: usize) -> Result<Vec<u64>, AllocError>
    ensures { IfOk result (λ lent. vec_len lent ≡ words) }
{
    let mut work = vec![in alloc; 0; words]?;
    untouched_words(&mut work);
    Ok(work)
}
