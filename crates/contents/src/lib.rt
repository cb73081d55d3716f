// The calls on a stream's bytes: size, read, write, truncate.
#![tactic(auto)]

ghost use Rattle.layout.specs.Promises.{Sizes, Reads, Writes, Truncates};

use blocks::chain::enough;
use front::{Sought, seek};
use holding::room::wants;
use layout::answers::Refusal;
use stream::descs::stream;

// No card has more bytes, and with no more of them every sum fits.
const MOST_GIVEN: usize = 0x1_0000_0000;

// How long the stream with that name is.
pub fn size(card: &[u8], name: &[u8]) -> Result<usize, Refusal>
    ensures { Sizes card.now name.now result }
{
    let Sought { shape, found } = seek(card, name)?;
    let Some(entry) = found else {
        return Err(Refusal::NotKnown);
    };
    Ok(holding::read::size(card, shape, entry.index))
}

// What the stream has from `place` on goes into the tray, as far as both go.
pub fn read(card: &[u8], name: &[u8], place: usize, tray: &mut [u8]) -> Result<usize, Refusal>
    ensures { Reads card.now name.now place tray.old result tray.new }
{
    let Sought { shape, found } = seek(card, name)?;
    let entry = found.ok_or(Refusal::NotKnown)?;
    if holding::read::size(card, shape, entry.index) < place {
        return Err(Refusal::PastTheEnd);
    }
    Ok(holding::read::read(card, shape, entry.index, place, tray))
}

// The bytes `given` go into the stream from `place` on. More bytes than any card holds find no room; the other numbers then fit.
pub fn write(card: &mut [u8], name: &[u8], place: usize, given: &[u8]) -> Result<usize, Refusal>
    ensures { Writes card.old name.now place given.now result card.new }
{
    let Sought { shape, found } = seek(&*card, name)?;
    let entry = found.ok_or(Refusal::NotKnown)?;
    let t = stream(&*card, shape, entry.index);
    if t.size < place {
        return Err(Refusal::PastTheEnd);
    }
    let n = given.len();
    if MOST_GIVEN < n {
        return Err(Refusal::NoRoom);
    }
    if !enough(
        &*card,
        shape,
        wants(shape.shape(), t, t.size.max(place + n)),
    ) {
        return Err(Refusal::NoRoom);
    }
    holding::write::write(card, shape, entry.index, place, given);
    Ok(n)
}

// The stream's first `n` bytes are kept.
pub fn truncate(card: &mut [u8], name: &[u8], n: usize) -> Result<(), Refusal>
    ensures { Truncates card.old name.now n result card.new }
{
    let Sought { shape, found } = seek(&*card, name)?;
    let entry = found.ok_or(Refusal::NotKnown)?;
    let size = holding::read::size(&*card, shape, entry.index);
    if size < n {
        return Err(Refusal::PastTheEnd);
    }
    holding::write::truncate(card, shape, entry.index, n);
    Ok(())
}
