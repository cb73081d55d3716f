// How many blocks a longer stream takes.
ghost use Rattle.std.specs.Prelude.{◌≡◌, ◌^◌, ◌<◌, ◌≤◌};
ghost use Rattle.layout.specs.Streams.{wants};

use layout::{Desc, Shape};
use pyramids::pyramid::{needed, up};

// The blocks that the stream that `t` describes takes to hold `n` bytes, on any shape whose blocks are of a card's size.
pub fn wants(s: Shape, t: Desc, n: usize) -> usize
    requires { (64 ≤ s.size) × (s.size ≤ 4096) × (n < 2 ^ 62) }
    ensures { (result ≡ wants s t n) × (result < 2 ^ 60) }
{
    let f = s.size / 4;
    let d = t.reserved / s.size;
    let more = up(s.size, n).saturating_sub(d);
    needed(f, d + more).saturating_sub(needed(f, d))
}
