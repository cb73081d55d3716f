// The calls on the root: create, delete, list.
#![tactic(auto)]

ghost use Rattle.layout.specs.Promises.{Creates, Deletes, Lists};

use acts::create::{create_wants, full};
use blocks::chain::enough;
use filing::listing::nth_entry;
use front::{ROOT, Sought, examine, seek};
use layout::answers::{Listed, Refusal};
use layout::limits::longest_name;
use stream::descs::stream;

// A new stream of no bytes, with that name.
pub fn create(card: &mut [u8], name: &[u8]) -> Result<(), Refusal>
    ensures { Creates card.old name.now result card.new }
{
    let Sought { shape, found } = seek(&*card, name)?;
    if found.is_some() {
        return Err(Refusal::AlreadyKnown);
    }
    if full(&*card, shape) {
        return Err(Refusal::StreamsFull);
    }
    if !enough(&*card, shape, create_wants(&*card, shape, ROOT, name)) {
        return Err(Refusal::NoRoom);
    }
    acts::create::create(card, shape, ROOT, name);
    Ok(())
}

// The stream with that name goes.
pub fn delete(card: &mut [u8], name: &[u8]) -> Result<(), Refusal>
    ensures { Deletes card.old name.now result card.new }
{
    let Sought { shape, found } = seek(&*card, name)?;
    let Some(entry) = found else {
        return Err(Refusal::NotKnown);
    };
    acts::delete::delete(card, shape, ROOT, entry.index, entry.at, name.len());
    Ok(())
}

// The name of entry number `k`, in the tray, and how long its stream is. A tray too short for every name is refused, once it is
// clear that there is such an entry.
pub fn list(card: &[u8], k: usize, tray: &mut [u8]) -> Result<Listed, Refusal>
    ensures { Lists card.now k tray.old result tray.new }
{
    let shape = examine(card)?.shape;
    if tray.len() < longest_name() {
        let root = stream(card, shape, ROOT);
        nth_entry(card, shape, root, k).ok_or(Refusal::PastTheEnd)?;
        return Err(Refusal::ShortTray);
    }
    let row = acts::list::list(card, shape, ROOT, k, tray).ok_or(Refusal::PastTheEnd)?;
    Ok(Listed {
        length: row.length,
        size: holding::read::size(card, shape, row.index),
    })
}
