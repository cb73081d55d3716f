// The levels above a stream's data blocks.
ghost use Rattle.std.specs.Prelude.{◌≡◌};
ghost use Rattle.layout.specs.Streams.{data_of, tall};

use blocks::cut::Cut;
use layout::Desc;
use pyramids::pyramid::height;

// How high the pyramid of the stream is that `t` describes.
pub(crate) fn levels(s: Cut, t: Desc) -> usize
    ensures { result ≡ tall s (data_of s t) }
{
    height(s.size / 4, t.reserved / s.size)
}
