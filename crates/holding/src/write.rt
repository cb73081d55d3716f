// Bytes written into a stream, and a stream cut short.
ghost use Rattle.std.specs.Prelude.{◌≡◌, ◌+◌, ◌^◌, ◌<◌, length, ltb};
ghost use Rattle.layout.specs.Bytes.{pick};
ghost use Rattle.layout.specs.Streams.{stream, lengthened};
ghost use Rattle.layout.specs.Calls.{written_in, truncated_in};

use blocks::cut::Cut;
use layout::limits::MOST_BLOCKS;
use stream::descs::stream;
use stream::inside::lay_in_stream;
use stream::lengths::{lengthen, shorten};

// Stream `k` is lengthened to `n` bytes where it has fewer.
fn stretch(card: &mut [u8], s: Cut, k: usize, n: usize)
    requires { (k < 2 ^ 56) × (n < 2 ^ 62) }
    ensures { card.new ≡ pick (ltb (stream card.old s k).size n) (lengthened card.old s k n) card.old }
{
    let t = stream(card, s, k);
    if t.size < n {
        lengthen(card, s, k, n);
    }
}

// The bytes `given` go into stream `k` from place `p` on, which is lengthened where it must be.
pub fn write(card: &mut [u8], s: Cut, k: usize, p: usize, given: &[u8])
    requires { (k < 2 ^ 56) × (p + length given.now < 2 ^ 62) }
    ensures { card.new ≡ written_in card.old s k p given.now }
{
    stretch(card, s, k, p + given.len());
    lay_in_stream(card, s, k, p, given);
}

// Stream `k`'s first `n` bytes are kept.
pub fn truncate(card: &mut [u8], s: Cut, k: usize, n: usize)
    requires { (k < 2 ^ 56) × (n < 2 ^ 62) }
    ensures { card.new ≡ truncated_in card.old s k n }
{
    let t = stream(card, s, k);
    if n == t.size {
        return;
    }
    let mut marks = [0; MOST_BLOCKS];
    shorten(card, s, k, n, &mut marks);
}
