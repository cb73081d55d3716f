// An entry more, and an entry less: appended at a directory's end, and later ones pulled forward over it.
ghost use Rattle.std.specs.Prelude.{◌≡◌, ◌+◌, ◌^◌, ◌<◌, ◌≤◌, length};
ghost use Rattle.layout.specs.Bytes.{over};
ghost use Rattle.layout.specs.Streams.{stream};
ghost use Rattle.layout.specs.Filing.{entry_bytes};
ghost use Rattle.filing.specs.Edited.{entered, moved, drawn, removed};

use crate::entries::HEAD;
use blocks::cut::Cut;
use laying::gather::gather_stream;
use laying::lay::lay_stream;
use layout::Desc;
use memory::bytes::put_number;
use memory::runs::copy;
use stream::descs::stream;
use stream::inside::lay_in_stream;
use stream::lengths::{lengthen, shorten};

// The bytes of an entry with the longest name.
const LONGEST: usize = 70;

// The bytes that are pulled at a time.
const MOVED: usize = 4096;

// An entry as it is written goes to the start of `page`.
fn put_entry(page: &mut [u8], index: usize, name: &[u8])
    ensures { page.new ≡ over page.old 0 (entry_bytes index name.now) }
{
    put_number(page, 0, 4, index);
    put_number(page, 4, 2, name.len());
    copy(page, HEAD, name, 0, name.len());
}

// Directory `k`, which is `p` bytes long, gets an entry at its end.
pub fn append(card: &mut [u8], s: Cut, k: usize, p: usize, index: usize, name: &[u8])
    requires { (k < 2 ^ 56) × (p < 2 ^ 61) × (length name.now ≤ 64) }
    ensures { card.new ≡ entered card.old s k p index name.now }
{
    let n = HEAD + name.len();
    let mut page = [0; LONGEST];
    put_entry(&mut page, index, name);
    lengthen(card, s, k, p + n);
    lay_in_stream(card, s, k, p, &page[..n]);
}

// `n` bytes of the stream that `t` describes are read from place `q` on and laid from place `p` on.
fn pull_page(card: &mut [u8], s: Cut, t: Desc, p: usize, q: usize, n: usize)
    requires { (p < 2 ^ 62) × (n ≤ 4096) × (q + n ≤ t.size) }
    ensures { card.new ≡ moved card.old s t p q n }
{
    let mut page = [0; MOVED];
    gather_stream(card, s, t, q, &mut page[..n]);
    lay_stream(card, s, t, p, &page[..n]);
}

// What the stream that `t` describes has from place `q` on is pulled forward to place `p`, page by page.
pub fn pull(card: &mut [u8], s: Cut, t: Desc, p: usize, q: usize)
    requires { (t.size < 2 ^ 62) × (p ≤ q) }
    ensures { card.new ≡ drawn t.size card.old s t p q }
{
    let size = t.size;
    for from in (q..size).step_by(MOVED) {
        let n = MOVED.min(size - from);
        pull_page(card, s, t, p + (from - q), from, n);
    }
}

// Directory `k` without the `n` bytes at `at`: the later ones are pulled forward, then it is shortened. The marks are lent for the work.
pub fn remove(card: &mut [u8], s: Cut, k: usize, at: usize, n: usize, marks: &mut [u8])
    requires { (k < 2 ^ 56) × ((stream card.old s k).size < 2 ^ 62) × (at + n < 2 ^ 62) × (s.count ≤ length marks.old) }
    ensures { card.new ≡ removed card.old s k at n }
{
    let t = stream(card, s, k);
    pull(card, s, t, at, at + n);
    shorten(card, s, k, t.size.saturating_sub(n), marks);
}
