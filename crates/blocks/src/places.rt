// Where blocks and their slots stand, and what a slot holds.
ghost use Rattle.std.specs.Prelude.{◌≡◌, ◌+◌, ◌*◌, ◌^◌, min, ◌<◌, ◌≤◌};
ghost use Rattle.layout.specs.Bytes.{num, put};
ghost use Rattle.layout.specs.Blocks.{fan, place, slot_place, slot};

use crate::cut::Cut;
use layout::Shape;
use memory::bytes::{number, put_number};

// The first number that 4 bytes do not hold; blocks from it on are past the end of every card of 2^32 bytes.
const FAR: usize = 0x1_0000_0000;

// How many indices a redirector holds.
pub fn fan(s: Cut) -> usize
    ensures { (result ≡ fan s) × (4 ≤ result) }
{
    s.size / 4
}

// Where block `b` starts, on a shape that need not be a card's; past the end of every card for a `b` above 2^32.
pub fn place(s: Shape, b: usize) -> usize
    requires { (s.base ≤ 1024) × (s.size ≤ 4096) }
    ensures { (result ≡ place s (min b 4294967296)) × (result ≤ 17592186045440) }
{
    s.base + b.min(FAR) * s.size
}

// Where byte `r` of block `b` stands, from the numbers alone; where that is no number of 64 bits the highest one, which is past
// the end of every card.
fn reach(base: usize, size: usize, b: usize, r: usize) -> usize
    requires { (base ≤ 1024) × (size ≤ 4096) × (r < 2 ^ 62) }
    ensures { result ≡ min (base + b * size + r) 18446744073709551615 }
{
    // What 4 bytes hold is so low that no sum stops short. The compiler knows it of a slot, and sums that may stop took a fifth longer.
    if b < FAR {
        return base + b * size + r;
    }
    b.saturating_mul(size)
        .saturating_add(base)
        .saturating_add(r)
}

// Where byte `r` of block `b` stands, or the highest number.
pub fn byte_place(s: Cut, b: usize, r: usize) -> usize
    requires { r < 2 ^ 62 }
    ensures { result ≡ min (place s b + r) 18446744073709551615 }
{
    reach(s.base, s.size, b, r)
}

// Where block `b` starts, or the highest number.
pub fn start(s: Cut, b: usize) -> usize
    ensures { result ≡ min (place s b) 18446744073709551615 }
{
    reach(s.base, s.size, b, 0)
}

// Index `j` of the block that starts at `at`.
pub fn slot_at(card: &[u8], at: usize, j: usize) -> usize
    requires { j ≤ 4294967296 }
    ensures { (result ≡ num 4 card.now (at + 4 * j)) × (result < 256 ^ 4) }
{
    number(&*card, at.saturating_add(4 * j), 4)
}

// Index `j` of block `b`, from the numbers alone.
pub fn index(card: &[u8], base: usize, size: usize, b: usize, j: usize) -> usize
    requires { (base ≤ 1024) × (size ≤ 4096) × (j ≤ 4294967296) }
    ensures { (result ≡ num 4 card.now (base + b * size + 4 * j)) × (result < 256 ^ 4) }
{
    number(&*card, reach(base, size, b, 4 * j), 4)
}

// Index `j` of block `b`.
pub fn slot(card: &[u8], s: Cut, b: usize, j: usize) -> usize
    requires { j ≤ 4294967296 }
    ensures { (result ≡ slot card.now s b j) × (result < 256 ^ 4) }
{
    index(&*card, s.base, s.size, b, j)
}

// `v` as index `j` of block `b`.
pub fn put_slot(card: &mut [u8], s: Cut, b: usize, j: usize, v: usize)
    requires { j ≤ 4096 }
    ensures { card.new ≡ put 4 card.old (slot_place s b j) v }
{
    put_number(card, byte_place(s, b, 4 * j), 4, v);
}
