// The reader: from a block and its height down to the data.
ghost use Rattle.std.specs.Prelude.{◌≡◌, ◌≤◌};
ghost use Rattle.layout.specs.Blocks.{node};
ghost use Rattle.blocks.specs.Plain.{plain_shape};

use crate::cut::Cut;
use crate::places::index;
use pyramids::pyramid::above;

// Data block `j` of the pyramid of height `h` that starts at block `b`. It takes one level at a call, and ends at height zero.
pub fn reader(card: &[u8], base: usize, size: usize, b: usize, h: usize, j: usize) -> usize
    requires { (base ≤ 1024) × (64 ≤ size) × (size ≤ 4096) }
    ensures { result ≡ node card.now (plain_shape base size) b h j }
{
    if h == 0 {
        return b;
    }
    let f = size / 4;
    let i = above(f, h - 1, j) % f;
    let below = index(&*card, base, size, b, i);
    reader(&*card, base, size, below, h - 1, j)
}

// Block number `j` of the level `e` below the top.
pub fn node(card: &[u8], s: Cut, top: usize, e: usize, j: usize) -> usize
    ensures { result ≡ node card.now s top e j }
{
    reader(&*card, s.base, s.size, top, e, j)
}
