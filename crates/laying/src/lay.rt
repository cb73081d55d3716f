// Bytes laid into a stream, block by block along each lowest redirector.
ghost use Rattle.std.specs.Prelude.{◌≡◌, ◌+◌, ◌/◌, ◌%◌, ◌^◌, ◌<◌, ◌≤◌, length};
ghost use Rattle.layout.specs.Bytes.{over};
ghost use Rattle.layout.specs.Blocks.{place};
ghost use Rattle.layout.specs.Streams.{data_of, tall, laid_row, laid};

use crate::levels::levels;
use blocks::cut::Cut;
use blocks::places::{byte_place, fan, slot_at, start};
use blocks::reader::node;
use layout::Desc;
use memory::runs::copy;

// The bytes `part` go into block `b` from its byte `r` on.
fn lay_block(card: &mut [u8], s: Cut, b: usize, r: usize, part: &[u8])
    requires { r < 2 ^ 62 }
    ensures { card.new ≡ over card.old (place s b + r) part.now }
{
    let at = byte_place(s, b, r);
    let n = part.len();
    // As in `gather_block`.
    if at <= card.len() && n <= card.len() - at {
        card[at..at + n].copy_from_slice(part);
        return;
    }
    copy(card, at, part, 0, n);
}

// The bytes `given` go into the blocks that the slots of block `b` name, from byte `r` of slot `i`'s block on.
fn lay_row(card: &mut [u8], s: Cut, b: usize, i: usize, r: usize, given: &[u8])
    requires { (r < s.size) × (i + length given.now ≤ 4294967296) }
    ensures { card.new ≡ laid_row (length given.now) card.old s b i r given.now }
{
    let size = s.size;
    let row = start(s, b);
    let mut at = r;
    let mut rest = given;
    // No more blocks than bytes. How many it takes to reach the last byte only a division tells, which would cost more than a block.
    for k in i..i + given.len() {
        if rest.is_empty() {
            return;
        }
        let (part, after) = rest.split_at((size - at).min(rest.len()));
        lay_block(card, s, slot_at(card, row, k), at, part);
        at = 0;
        rest = after;
    }
}

// The bytes `given` go into a stream of height `h` from its place `p` on.
pub fn lay(card: &mut [u8], s: Cut, top: usize, h: usize, p: usize, given: &[u8])
    requires { (p < 2 ^ 62) × (length given.now < 2 ^ 62) }
    ensures { card.new ≡ laid card.old s top h p given.now }
{
    if h == 0 {
        lay_block(card, s, top, p, given);
        return;
    }
    let size = s.size;
    let f = fan(s);
    let first = p / size / f;
    let mut i = p / size % f;
    let mut r = p % size;
    let mut rest = given;
    // No more rows than bytes.
    for q in first..first + given.len() {
        if rest.is_empty() {
            return;
        }
        let (part, after) = rest.split_at(((f - i) * size - r).min(rest.len()));
        lay_row(card, s, node(card, s, top, h - 1, q), i, r, part);
        i = 0;
        r = 0;
        rest = after;
    }
}

// The same into the stream that `t` describes.
pub fn lay_stream(card: &mut [u8], s: Cut, t: Desc, p: usize, given: &[u8])
    requires { (p < 2 ^ 62) × (length given.now < 2 ^ 62) }
    ensures { card.new ≡ laid card.old s t.top (tall s (data_of s t)) p given.now }
{
    lay(card, s, t.top, levels(s, t), p, given);
}
