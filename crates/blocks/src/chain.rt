// The free chain: its links, whether it is long enough, taking its head.
ghost use Rattle.std.specs.Prelude.{◌≡◌};
ghost use Rattle.layout.specs.Blocks.{wide, narrow, first_free, next, enough, taken};

use crate::cut::Cut;
use crate::places::{slot, start};
use layout::Shape;
use memory::bytes::{number, put_number};
use memory::runs::clear;

// All bits set in 8 bytes, as the header says that there is no block. A number and no Option: the clauses of `first_free` and
// `next` promise just this number there.
pub const END8: usize = 0xffff_ffff_ffff_ffff;

// All bits set in 4 bytes, as a link says it.
pub const END4: usize = 0xffff_ffff;

// A link's number as the header would hold it.
pub fn widened(b: usize) -> usize
    ensures { result ≡ wide b }
{
    if b == END4 { END8 } else { b }
}

// The header's number as a link would hold it.
pub fn narrowed(b: usize) -> usize
    ensures { result ≡ narrow b }
{
    if b == END8 { END4 } else { b }
}

// The first free block, on any shape: its promise asks for no small number.
pub fn first_free(card: &[u8], s: Shape) -> usize
    ensures { result ≡ first_free card.now s }
{
    number(&*card, s.first, 8)
}

// The free block after `b`.
pub fn next(card: &[u8], s: Cut, b: usize) -> usize
    ensures { result ≡ next card.now s b }
{
    widened(slot(&*card, s, b, 0))
}

// Whether `n` blocks are free, in at most `n` steps.
pub fn enough(card: &[u8], s: Cut, n: usize) -> bool
    ensures { result ≡ enough card.now s n }
{
    let mut b = first_free(&*card, s.shape());
    for _ in 0..n {
        if b == END8 {
            return false;
        }
        b = next(&*card, s, b);
    }
    true
}

// Takes the head of the chain, and answers its number.
pub fn take_block(card: &mut [u8], s: Cut) -> usize
    ensures { (result ≡ first_free card.old s) × (card.new ≡ taken card.old s) }
{
    let b = first_free(card, s.shape());
    let after = next(card, s, b);
    clear(card, start(s, b), s.size);
    put_number(card, s.first, 8, after);
    b
}
