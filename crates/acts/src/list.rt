// An entry by its number, with its name in the tray.
ghost use Rattle.std.specs.Prelude.{◌≡◌, ◌^◌, ◌<◌, get_or};
ghost use Rattle.layout.specs.Bytes.{over};
ghost use Rattle.layout.specs.Streams.{stream};
ghost use Rattle.layout.specs.Filing.{entries_of, nothing};
ghost use Rattle.filing.specs.Located.{numbered};

use blocks::cut::Cut;
use filing::entries::HEAD;
use filing::listing::{Row, nth_entry};
use laying::gather::gather_part;
use stream::descs::stream;

// Entry number `n` of directory `k`; where there is one, its name goes into the tray.
pub fn list(card: &[u8], s: Cut, k: usize, n: usize, tray: &mut [u8]) -> Option<Row>
    requires { (k < 2 ^ 56) × ((stream card.now s k).size < 2 ^ 62) }
    ensures { (result ≡ numbered (entries_of card.now s k) n) × (tray.new ≡ over tray.old 0 (get_or (entries_of card.now s k) n nothing).name) }
{
    let t = stream(card, s, k);
    let row = nth_entry(card, s, t, n)?;
    gather_part(card, s, t, row.at + HEAD, tray, 0, row.length);
    Some(row)
}
