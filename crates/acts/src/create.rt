// A new stream: the first free descriptor, or one more at the table's end, and an entry that names it.
ghost use Rattle.std.specs.Prelude.{◌≡◌, ◌^◌, ◌<◌, ◌≤◌, length, replicate};
ghost use Rattle.layout.specs.Bytes.{num, bytes};
ghost use Rattle.layout.specs.Streams.{table, table_bytes, offset, slots, stream, in_table, table_lengthened};
ghost use Rattle.layout.specs.Calls.{new_index, described, create_wants_in, created_in};
ghost use Rattle.acts.specs.Fits.{Fits};
ghost use Rattle.acts.specs.Full.{full_table};

use blocks::chain::END8;
use blocks::cut::Cut;
use filing::edits::append;
use filing::entries::HEAD;
use holding::read::size;
use holding::room::wants;
use layout::limits::most_streams;
use stream::descs::{descriptors, stream, table};
use stream::inside::{lay_in_table, put_table_number, table_number};
use stream::lengths::lengthen_table;

// L62, L63: where the table's first descriptor stands, and how many bytes a descriptor has.
pub(crate) const FIRST_PLACE: usize = 8;

pub(crate) const LENGTH: usize = 25;

// The index that a new stream gets.
pub fn new_index(card: &[u8], s: Cut) -> usize
    ensures { result ≡ new_index (table_bytes card.now s) }
{
    let first = table_number(card, s, 0);
    if first == END8 {
        return descriptors(card, s);
    }
    first.saturating_sub(FIRST_PLACE) / LENGTH
}

// Whether the table can take no more streams.
pub fn full(card: &[u8], s: Cut) -> bool
    ensures { result ≡ full_table (table_bytes card.now s) }
{
    table_number(card, s, 0) == END8 && most_streams() <= descriptors(card, s)
}

// The free descriptor at `first` comes off the chain and becomes all zero.
fn reuse_descriptor(card: &mut [u8], s: Cut, first: usize)
    requires { first < 2 ^ 61 }
    ensures { card.new ≡ in_table (in_table card.old s 0 (bytes 8 (num 8 (table_bytes card.old s) first))) s first (replicate 25 0) }
{
    let after = table_number(card, s, first);
    put_table_number(card, s, 0, after);
    lay_in_table(card, s, first, &[0; LENGTH]);
}

// One descriptor more at the table's end, all zero.
fn add_descriptor(card: &mut [u8], s: Cut)
    requires { (table card.old s).size < 2 ^ 61 }
    ensures { card.new ≡ in_table (table_lengthened card.old s) s (offset (slots (table_bytes card.old s))) (replicate 25 0) }
{
    let n = descriptors(card, s);
    lengthen_table(card, s);
    lay_in_table(card, s, FIRST_PLACE + LENGTH * n, &[0; LENGTH]);
}

// The descriptor that a new stream gets.
#[tactic(auto, unfolding(layout::specs::Calls::described))]
pub fn describe(card: &mut [u8], s: Cut)
    requires { Fits card.old s }
    ensures { card.new ≡ described card.old s }
{
    let first = table_number(card, s, 0);
    if first == END8 {
        add_descriptor(card, s);
    } else {
        reuse_descriptor(card, s, first);
    }
}

// The blocks that a create takes: the table's, where no descriptor is free, and the directory's.
pub fn create_wants(card: &[u8], s: Cut, k: usize, name: &[u8]) -> usize
    requires { (k < 2 ^ 56) × (length name.now ≤ 64) × ((table card.now s).size < 2 ^ 61) × ((stream card.now s k).size < 2 ^ 61) }
    ensures { result ≡ create_wants_in card.now s k name.now }
{
    let shape = s.shape();
    let d = stream(card, s, k);
    let more = wants(shape, d, d.size + HEAD + name.len());
    if table_number(card, s, 0) != END8 {
        return more;
    }
    let t = table(card, s);
    wants(shape, t, t.size + LENGTH) + more
}

// A new stream, and its entry at the end of directory `k`.
pub fn create(card: &mut [u8], s: Cut, k: usize, name: &[u8])
    requires { Fits card.old s × (k < 2 ^ 56) × (length name.now ≤ 64) × ((stream card.old s k).size < 2 ^ 61) }
    ensures { card.new ≡ created_in card.old s k name.now }
{
    let index = new_index(card, s);
    let end = size(card, s, k);
    describe(card, s);
    append(card, s, k, end, index, name);
}
