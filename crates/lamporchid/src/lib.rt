// The store under C names: the ten calls, each with one word for its answer. A slice is handed over as pointer and length.
#![tactic(auto)]

ghost use Rattle.std.specs.Prelude.{◌≡◌};
ghost use Rattle.layout.specs.Calls.{format, check, room, create, write, read, truncate, delete, size, list};
ghost use Rattle.layout.specs.Words.{word};

use pack::{counted_word, done_word, listed_word};

pub mod pack;

#[unsafe(no_mangle)]
pub extern "C" fn lamporchid_format(card: &mut [u8], s: usize) -> usize
    ensures { (result ≡ word (format card.old s)) × (card.new ≡ (format card.old s).card) }
{
    done_word(whole::format(card, s))
}

#[unsafe(no_mangle)]
pub extern "C" fn lamporchid_check(card: &[u8]) -> usize
    ensures { result ≡ word (check card.now) }
{
    done_word(whole::check(card))
}

#[unsafe(no_mangle)]
pub extern "C" fn lamporchid_room(card: &[u8]) -> usize
    ensures { result ≡ word (room card.now) }
{
    counted_word(whole::room(card))
}

#[unsafe(no_mangle)]
pub extern "C" fn lamporchid_create(card: &mut [u8], name: &[u8]) -> usize
    ensures { (result ≡ word (create card.old name.now)) × (card.new ≡ (create card.old name.now).card) }
{
    done_word(names::create(card, name))
}

#[unsafe(no_mangle)]
pub extern "C" fn lamporchid_size(card: &[u8], name: &[u8]) -> usize
    ensures { result ≡ word (size card.now name.now) }
{
    counted_word(contents::size(card, name))
}

#[unsafe(no_mangle)]
pub extern "C" fn lamporchid_write(
    card: &mut [u8],
    name: &[u8],
    place: usize,
    given: &[u8],
) -> usize
    ensures { (result ≡ word (write card.old name.now place given.now))
        × (card.new ≡ (write card.old name.now place given.now).card) }
{
    counted_word(contents::write(card, name, place, given))
}

#[unsafe(no_mangle)]
pub extern "C" fn lamporchid_read(card: &[u8], name: &[u8], place: usize, tray: &mut [u8]) -> usize
    ensures { (result ≡ word (read card.now name.now place tray.old))
        × (tray.new ≡ (read card.now name.now place tray.old).tray) }
{
    counted_word(contents::read(card, name, place, tray))
}

#[unsafe(no_mangle)]
pub extern "C" fn lamporchid_truncate(card: &mut [u8], name: &[u8], n: usize) -> usize
    ensures { (result ≡ word (truncate card.old name.now n))
        × (card.new ≡ (truncate card.old name.now n).card) }
{
    done_word(contents::truncate(card, name, n))
}

#[unsafe(no_mangle)]
pub extern "C" fn lamporchid_delete(card: &mut [u8], name: &[u8]) -> usize
    ensures { (result ≡ word (delete card.old name.now)) × (card.new ≡ (delete card.old name.now).card) }
{
    done_word(names::delete(card, name))
}

#[unsafe(no_mangle)]
pub extern "C" fn lamporchid_list(card: &[u8], k: usize, tray: &mut [u8]) -> usize
    ensures { (result ≡ word (list card.now k tray.old)) × (tray.new ≡ (list card.now k tray.old).tray) }
{
    listed_word(names::list(card, k, tray))
}
