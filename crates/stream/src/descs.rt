// Descriptors: the table's own in the header, all others in the table's stream.
ghost use Rattle.std.specs.Prelude.{◌≡◌, ◌+◌, ◌*◌, ◌^◌, ◌<◌};
ghost use Rattle.layout.specs.Bytes.{over};
ghost use Rattle.layout.specs.Streams.{desc_in, fields, table, table_bytes, table_set, offset, slots, stream, desc_set};

use crate::inside::lay_in_table;
use blocks::cut::Cut;
use laying::gather::gather_stream;
use layout::Desc;
use memory::bytes::{byte, number, put_number};

// The descriptor in the 25 bytes at `at`.
pub fn descriptor(card: &[u8], at: usize) -> Desc
    requires { at + 25 < 2 ^ 64 }
    ensures { result ≡ desc_in card.now at }
{
    Desc {
        size: number(card, at, 8),
        top: number(card, at + 8, 8),
        reserved: number(card, at + 16, 8),
        flags: usize::from(byte(card, at + 24)),
    }
}

// Its first three fields, at `at`.
fn put_fields(card: &mut [u8], s: Cut, at: usize, size: usize, top: usize, d: usize)
    requires { (at + 25 < 2 ^ 64) × (d * s.size < 2 ^ 64) }
    ensures { card.new ≡ over card.old at (fields s size top d) }
{
    put_number(card, at, 8, size);
    put_number(card, at + 8, 8, top);
    put_number(card, at + 16, 8, d * s.size);
}

// The table's own descriptor.
pub fn table(card: &[u8], s: Cut) -> Desc
    ensures { result ≡ table card.now s }
{
    descriptor(card, s.table)
}

// How many descriptors the table has.
pub fn descriptors(card: &[u8], s: Cut) -> usize
    ensures { result ≡ slots (table_bytes card.now s) }
{
    table(card, s).size.saturating_sub(8) / 25
}

// The table's own descriptor, set.
pub fn set_table(card: &mut [u8], s: Cut, size: usize, top: usize, d: usize)
    requires { d * s.size < 2 ^ 64 }
    ensures { card.new ≡ table_set card.old s size top d }
{
    let at = s.table;
    put_fields(card, s, at, size, top, d);
}

// Where descriptor `k` stands in the table.
fn offset(k: usize) -> usize
    requires { k < 2 ^ 56 }
    ensures { result ≡ offset k }
{
    8 + 25 * k
}

// Stream `k`'s descriptor; zeros past the table's end.
pub fn stream(card: &[u8], s: Cut, k: usize) -> Desc
    requires { k < 2 ^ 56 }
    ensures { result ≡ stream card.now s k }
{
    let mut page = [0; 25];
    gather_stream(card, s, table(card, s), offset(k), &mut page);
    descriptor(&page, 0)
}

// Stream `k`'s descriptor, set; its flags stay.
pub fn set_stream(card: &mut [u8], s: Cut, k: usize, size: usize, top: usize, d: usize)
    requires { (k < 2 ^ 56) × (d * s.size < 2 ^ 64) }
    ensures { card.new ≡ desc_set card.old s k size top d }
{
    let mut page = [0; 24];
    put_fields(&mut page, s, 0, size, top, d);
    lay_in_table(card, s, offset(k), &page);
}
