// A stream's bytes read into a tray: row by row, so that the lowest redirector is found once for all of its blocks.
ghost use Rattle.std.specs.Prelude.{◌≡◌, ℕ, ◌+◌, ◌*◌, ◌^◌, ◌<◌, ◌≤◌, length, take, drop};
ghost use Rattle.layout.specs.Bytes.{over, window};
ghost use Rattle.layout.specs.Blocks.{place, slot, node};
ghost use Rattle.layout.specs.Streams.{data_of, contents};
ghost use Rattle.laying.specs.Gathered.{gathered};

use crate::levels::levels;
use blocks::cut::Cut;
use blocks::places::{byte_place, fan, slot_at, start};
use blocks::reader::node;
use layout::Desc;
use memory::runs::fetch;

// The bytes of block `b` from its byte `r` on fill `tray`.
fn gather_block(card: &[u8], s: Cut, b: usize, r: usize, tray: &mut [u8])
    requires { r ≤ 4096 }
    ensures { tray.new ≡ window card.now (place s b + r) (length tray.old) }
{
    let from = byte_place(s, b, r);
    let n = tray.len();
    // Where all of them are there it is one copy, with nothing cut at either end.
    if from <= card.len() && n <= card.len() - from {
        tray.copy_from_slice(&card[from..from + n]);
        return;
    }
    fetch(tray, 0, &*card, from, n);
}

// The blocks that `block` names by their numbers, from byte `r` of block `i` on, fill `tray`.
fn gather_blocks<F: Fn(usize) -> usize>(
    card: &[u8],
    s: Cut,
    block: F,
    i: usize,
    r: usize,
    tray: &mut [u8],
)
    requires fits { (r < s.size) × (i + length tray.old < 2 ^ 64) }
    requires named { (k : ℕ) → k ≤ i + length tray.old → F.pre block k }
    ensures { (b : ℕ → ℕ) → ((k x : ℕ) → F.post block k x → x ≡ b k) → tray.new ≡ gathered card.now s b (i * s.size + r) (length tray.old) }
{
    let size = s.size;
    let n = tray.len();
    let mut k = i;
    let mut from = r;
    let mut to = 0;
    // A `for` over the blocks was tried: its number and its end are kept beside what the copy needs, and 64 KiB in blocks of 64
    // bytes took a third longer.
    while to < n {
        let m = (size - from).min(n - to);
        gather_block(&*card, s, block(k), from, &mut tray[to..to + m]);
        k += 1;
        from = 0;
        to += m;
    }
}

// A stream with redirectors, from place `p` on, fills `tray`: the blocks below each block of level 1 in turn.
fn gather_rows(card: &[u8], s: Cut, top: usize, h: usize, p: usize, tray: &mut [u8])
    requires { (0 < h) × (p + length tray.old < 2 ^ 64) }
    ensures { tray.new ≡ gathered card.now s (node card.now s top h) p (length tray.old) }
{
    let size = s.size;
    let f = fan(s);
    let n = tray.len();
    let first = p / size / f;
    let mut i = p / size % f;
    let mut r = p % size;
    let mut to = 0;
    // No more rows than bytes. How many it takes to reach the last byte only a division tells.
    for q in first..first + n {
        if to == n {
            return;
        }
        let m = ((f - i) * size - r).min(n - to);
        let row = start(s, node(&*card, s, top, h - 1, q));
        gather_blocks(
            &*card,
            s,
            |k| slot_at(&*card, row, k),
            i,
            r,
            &mut tray[to..to + m],
        );
        i = 0;
        r = 0;
        to += m;
    }
}

// What the stream that `t` describes has from place `p` on goes to `tray`, as much as fits.
pub fn gather_stream(card: &[u8], s: Cut, t: Desc, p: usize, tray: &mut [u8])
    ensures { tray.new ≡ over tray.old 0 (take (length tray.old) (drop p (contents card.now s t.top (data_of s t) t.size))) }
{
    let there = t.size.saturating_sub(p);
    let m = there.min(tray.len());
    if m == 0 {
        return;
    }
    let top = t.top;
    let h = levels(s, t);
    if h == 0 {
        gather_blocks(&*card, s, |_| top, 0, p % s.size, &mut tray[..m]);
    } else {
        gather_rows(&*card, s, top, h, p, &mut tray[..m]);
    }
}

// The same from byte `at` of the tray on, and `n` bytes at most; nothing past the tray's end.
pub fn gather_part(card: &[u8], s: Cut, t: Desc, p: usize, tray: &mut [u8], at: usize, n: usize)
    ensures { tray.new ≡ over tray.old at (take n (drop p (contents card.now s t.top (data_of s t) t.size))) }
{
    let from = at.min(tray.len());
    let m = n.min(tray.len() - from);
    gather_stream(card, s, t, p, &mut tray[from..from + m]);
}
