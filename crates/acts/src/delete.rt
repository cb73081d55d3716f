// A stream deleted: its blocks and its descriptor are freed, and its entry goes.
ghost use Rattle.std.specs.Prelude.{◌≡◌, ◌+◌, ◌^◌, ◌<◌, ◌≤◌, length};
ghost use Rattle.layout.specs.Streams.{stream};
ghost use Rattle.layout.specs.Calls.{undescribed};
ghost use Rattle.acts.specs.Deleted.{deleted_at};

use crate::create::{FIRST_PLACE, LENGTH};
use blocks::chain::END8;
use blocks::cut::Cut;
use filing::edits::remove;
use filing::entries::HEAD;
use layout::limits::MOST_BLOCKS;
use memory::bytes::put_number;
use stream::inside::{lay_in_table, put_table_number, table_number};
use stream::lengths::shorten;

// Stream `j`'s blocks are given back, and its descriptor goes first on the descriptors' chain. The marks are lent for the work.
fn undescribe(card: &mut [u8], s: Cut, j: usize, marks: &mut [u8])
    requires { (j < 2 ^ 56) × (s.count ≤ length marks.old) }
    ensures { card.new ≡ undescribed card.old s j }
{
    let first = table_number(card, s, 0);
    shorten(card, s, j, 0, marks);
    // L65: the first two fields of the free form.
    let mut page = [0; 16];
    put_number(&mut page, 0, 8, first);
    put_number(&mut page, 8, 8, END8);
    let at = FIRST_PLACE + LENGTH * j;
    lay_in_table(card, s, at, &page);
    put_table_number(card, s, 0, at);
}

// Stream `j` goes, and its entry, which stands at `at` in directory `k` and has a name of `n` bytes.
pub fn delete(card: &mut [u8], s: Cut, k: usize, j: usize, at: usize, n: usize)
    requires { (k < 2 ^ 56) × (j < 2 ^ 56) × (at + n < 2 ^ 61) × ((stream (undescribed card.old s j) s k).size < 2 ^ 62) }
    ensures { card.new ≡ deleted_at card.old s k j at n }
{
    let mut marks = [0; MOST_BLOCKS];
    undescribe(card, s, j, &mut marks);
    remove(card, s, k, at, HEAD + n, &mut marks);
}
