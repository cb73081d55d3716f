// What a stream holds, and how long it is.
ghost use Rattle.std.specs.Prelude.{◌≡◌, ◌^◌, ◌<◌, length, take, drop};
ghost use Rattle.layout.specs.Bytes.{over};
ghost use Rattle.layout.specs.Streams.{stream, stream_bytes};

use blocks::cut::Cut;
use laying::gather::gather_stream;
use stream::descs::stream;

// Stream `k`'s size.
pub fn size(card: &[u8], s: Cut, k: usize) -> usize
    requires { k < 2 ^ 56 }
    ensures { result ≡ (stream card.now s k).size }
{
    stream(card, s, k).size
}

// What stream `k` has from place `p` on goes into the tray, as far as both go; answers how many bytes.
pub fn read(card: &[u8], s: Cut, k: usize, p: usize, tray: &mut [u8]) -> usize
    requires { k < 2 ^ 56 }
    ensures { (result ≡ length (take (length tray.old) (drop p (stream_bytes card.now s k)))) × (tray.new ≡ over tray.old 0 (take (length tray.old) (drop p (stream_bytes card.now s k)))) }
{
    let t = stream(card, s, k);
    gather_stream(card, s, t, p, tray);
    tray.len().min(t.size.saturating_sub(p))
}
