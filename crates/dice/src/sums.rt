// The arithmetic of the cards: block sizes, products, quotients and remainders of any numbers, and the sum of bytes.
ghost use Rattle.std.specs.Prelude.{◌≡◌, ◌<◌, ◌≤◌, ◌*◌, ◌^◌, min};
ghost use Rattle.dice.specs.Sums.{quotient_of, rest_of, sum_of};

use crate::MODULUS;

// The shift of the largest block.
pub const MOST_SHIFT: usize = 12;

// What a factor is cut to.
pub const MOST_FACTOR: usize = 1048575;

// The bytes of a block.
pub fn block_bytes(shift: usize) -> usize
    ensures bytes { result ≡ 2 ^ min shift MOST_SHIFT }
    ensures low { 1 ≤ result }
    ensures high { result ≤ 4096 }
{
    1 << shift.min(MOST_SHIFT)
}

// The product of two numbers below 2^20.
pub fn times(a: usize, b: usize) -> usize
    ensures product { result ≡ min a MOST_FACTOR * min b MOST_FACTOR }
    ensures bound { result < 2 ^ 40 }
{
    a.min(MOST_FACTOR) * b.min(MOST_FACTOR)
}

// The quotient; 0 by 0.
pub fn quotient(a: usize, b: usize) -> usize
    ensures value { result ≡ quotient_of a b }
    ensures bound { result ≤ a }
{
    a.checked_div(b).unwrap_or(0)
}

// The remainder; 0 by 0.
pub fn rest(a: usize, b: usize) -> usize
    ensures value { result ≡ rest_of a b }
    ensures bound { result ≤ a }
    ensures within { 0 < b → result < b }
{
    a.checked_rem(b).unwrap_or(0)
}

// The sum of bytes, from a number on.
pub fn sum(start: usize, factor: usize, bytes: &[u8]) -> usize
    requires start { start < MODULUS }
    requires factor { factor < 2 ^ 32 }
    ensures sum { result ≡ sum_of factor start bytes.now }
    ensures bound { result < MODULUS }
{
    let mut v = start;
    for b in bytes {
        v = (v * factor + usize::from(*b)) % MODULUS;
    }
    v
}
