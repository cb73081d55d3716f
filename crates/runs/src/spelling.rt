// Names by their numbers (R2): 0 to 254 are good, 255 to 258 are bad in four ways, and then come short good ones.
ghost use Rattle.std.specs.Prelude.{◌≤◌};

use std::alloc::{AllocError, Global};

// The names with a length of their own.
const EMPTY: usize = 256;

const TOO_LONG: usize = 257;

const BARRED_AT_THE_END: usize = 258;

// The longest good name.
const LONGEST: usize = 64;

// How long name `j` is.
fn length_of(j: usize) -> usize
    ensures { result ≤ 65 }
{
    match j {
        EMPTY => 0,
        TOO_LONG => LONGEST + 1,
        BARRED_AT_THE_END => LONGEST,
        0..=255 => 1 + 9 * (j % 8),
        _ => 2,
    }
}

// Byte `i` of name `j`: a slash stands only where it makes a name bad.
fn letter(j: usize, i: usize) -> u8 {
    if j == BARRED_AT_THE_END && i == LONGEST - 1 {
        return b'/';
    }
    let b = (j.wrapping_add(48).wrapping_add(i.wrapping_mul(5)) % 256) as u8;
    if b == b'/' && 0 < i { 0 } else { b }
}

// Name `j`.
pub fn spell(alloc: Global, j: usize) -> Result<Vec<u8>, AllocError> {
    (0..length_of(j)).map(|i| letter(j, i)).collect(alloc)
}
