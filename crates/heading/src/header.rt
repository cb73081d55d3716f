// Rules 1 to 3: the header's fixed values, and the shape that it gives the card.
ghost use Rattle.std.specs.Prelude.{◌≡◌, ◌^◌, ◌<◌, ◌≤◌};
ghost use Rattle.layout.specs.Header.{good_rest, good_shape, shaped, shift_of, shape_of};
ghost use Rattle.layout.specs.Sound.{rule1, rule2, rule3};

use crate::fixed::{
    FILING, FIRST, FIRST_FREE, FOURTH, HEAD_LENGTH, INDEX_WIDTH, LEAST_SHIFT, MOST_SHIFT, SECOND,
    SHIFT, STREAM, TABLE, THIRD,
};
use layout::Shape;
use layout::limits::most_blocks;
use memory::bytes::byte;
use memory::runs::matches;

// Rule 1: there is a header.
#[tactic(auto, unfolding(layout::specs::Sound::rule1))]
pub fn rule1(card: &[u8]) -> bool
    ensures { result ≡ rule1 card.now }
{
    HEAD_LENGTH <= card.len()
}

// Rule 2: the fixed values are right.
#[tactic(auto, unfolding(layout::specs::Sound::rule2, layout::specs::Header::fixed))]
pub fn rule2(card: &[u8]) -> bool
    ensures { result ≡ rule2 card.now }
{
    matches(card, 0, &FIRST)
        && matches(card, INDEX_WIDTH, &SECOND)
        && matches(card, STREAM, &THIRD)
        && matches(card, FILING, &FOURTH)
}

// 2 to the power of the shift, by doubling: where it is inlined the compiler makes a shift of each division by it. `1 << shift`
// was tried: it left twelve divisions in the check, which took 8 in 100 longer.
fn power(shift: usize) -> usize
    requires { shift ≤ 12 }
    ensures { result ≡ 2 ^ shift }
{
    let mut size = 1;
    for _ in 0..shift {
        size *= 2;
    }
    size
}

// Whether `rest` bytes are 1 to 4,096 whole blocks of `size` bytes.
fn good_rest(rest: usize, size: usize) -> bool
    requires { 0 < size }
    ensures { result ≡ good_rest rest size }
{
    rest % size == 0 && 1 <= rest / size && rest / size <= most_blocks()
}

// Whether a card of `len` bytes can have blocks of 2 ^ `shift` bytes.
#[tactic(auto, unfolding(layout::specs::Header::good_shape))]
pub fn good_shape(len: usize, shift: usize) -> bool
    ensures { result ≡ good_shape len shift }
{
    LEAST_SHIFT <= shift
        && shift <= MOST_SHIFT
        && HEAD_LENGTH <= len
        && good_rest(len - HEAD_LENGTH, power(shift))
}

// How such a card is cut.
pub fn cut(len: usize, shift: usize) -> Shape
    requires { shift ≤ 12 }
    ensures { result ≡ shaped len shift }
{
    let size = power(shift);
    Shape {
        base: HEAD_LENGTH,
        size,
        count: len.saturating_sub(HEAD_LENGTH) / size,
        first: FIRST_FREE,
        table: TABLE,
        filing: FILING,
    }
}

// Rule 3: the shift is one of those that are allowed, and after the header come 1 to 4,096 whole blocks.
#[tactic(auto, unfolding(layout::specs::Sound::rule3, layout::specs::Header::good_shape))]
pub fn rule3(card: &[u8]) -> bool
    ensures { result ≡ rule3 card.now }
{
    good_shape(card.len(), usize::from(byte(card, SHIFT)))
}

// How the card is cut, once the shift is known to be allowed.
#[tactic(auto, unfolding(layout::specs::Header::shape_of))]
pub fn shape(card: &[u8]) -> Shape
    requires { shift_of card.now ≤ 12 }
    ensures { result ≡ shape_of card.now }
{
    cut(card.len(), usize::from(byte(card, SHIFT)))
}
