// The table and the streams by their index: numbers read from the table, bytes laid where the card says that they go.
ghost use Rattle.std.specs.Prelude.{◌≡◌, ◌^◌, ◌<◌, length};
ghost use Rattle.layout.specs.Bytes.{num, bytes};
ghost use Rattle.layout.specs.Streams.{table_bytes, in_table, in_stream};

use crate::descs::{stream, table};
use blocks::cut::Cut;
use laying::gather::gather_stream;
use laying::lay::lay_stream;
use memory::bytes::{number, put_number};

// The number in the 8 bytes at `at` of the table.
pub fn table_number(card: &[u8], s: Cut, at: usize) -> usize
    ensures { result ≡ num 8 (table_bytes card.now s) at }
{
    let mut page = [0; 8];
    gather_stream(card, s, table(card, s), at, &mut page);
    number(&page, 0, 8)
}

// The bytes `given` go into the table from place `p` on.
pub fn lay_in_table(card: &mut [u8], s: Cut, p: usize, given: &[u8])
    requires { (p < 2 ^ 62) × (length given.now < 2 ^ 62) }
    ensures { card.new ≡ in_table card.old s p given.now }
{
    lay_stream(card, s, table(card, s), p, given);
}

// The bytes `given` go into stream `k` from place `p` on.
pub fn lay_in_stream(card: &mut [u8], s: Cut, k: usize, p: usize, given: &[u8])
    requires { (k < 2 ^ 56) × (p < 2 ^ 62) × (length given.now < 2 ^ 62) }
    ensures { card.new ≡ in_stream card.old s k p given.now }
{
    lay_stream(card, s, stream(card, s, k), p, given);
}

// The number `v` goes into the table's 8 bytes at `p`.
pub fn put_table_number(card: &mut [u8], s: Cut, p: usize, v: usize)
    requires { p < 2 ^ 62 }
    ensures { card.new ≡ in_table card.old s p (bytes 8 v) }
{
    let mut page = [0; 8];
    put_number(&mut page, 0, 8, v);
    lay_in_table(card, s, p, &page);
}
