// Pages: a directory's bytes are gathered anew only where an entry is not all on the page.
ghost use Rattle.std.specs.Prelude.{◌≡◌, ℕ, ◌≤◌, List, length};
ghost use Rattle.layout.specs.Bytes.{same};
ghost use Rattle.layout.specs.Streams.{data_of, contents};
ghost use Rattle.layout.specs.Filing.{entry_at};
ghost use Rattle.filing.specs.Paged.{piece_at, Paged, On, Turned};

use crate::names::name_is;
use blocks::cut::Cut;
use laying::gather::gather_stream;
use layout::Desc;

// The bytes of a page: seven entries with the longest name, or many with short ones.
const PAGE: usize = 512;

// The bytes that show an entry: 6 and the longest name, and one more, by which a longer name shows.
const PIECE: usize = 71;

// A page of a directory's bytes, and where in the directory it starts.
#[derive(Drop)]
pub struct Page {
    bytes: [u8; PAGE],
    from: usize,
}

impl Page {
    // With nothing on it: it starts where the directory that `t` describes ends.
    pub fn blank(t: Desc) -> Page
        ensures { (r : List ℕ) → t.size ≡ length r → Paged result r }
    {
        Page {
            bytes: [0; PAGE],
            from: t.size,
        }
    }

    // Turns to `at` of the directory that `t` describes, so that the piece there is on the page; it stays if the piece is on it.
    pub fn turn(&mut self, card: &[u8], s: Cut, t: Desc, at: usize)
        requires { Paged self.old (contents card.now s t.top (data_of s t) t.size) }
        ensures { Turned self.new at (contents card.now s t.top (data_of s t) t.size) }
    {
        if at < self.from || PAGE - PIECE < at - self.from {
            gather_stream(card, s, t, at, &mut self.bytes);
            self.from = at;
        }
    }

    // The piece at `at` of the directory that `t` describes, where the page is turned to it.
    pub fn piece(&self, t: Desc, at: usize) -> &[u8]
        requires { (at ≤ t.size) × On self.now at }
        ensures { (r : List ℕ) → Turned self.now at r → t.size ≡ length r → result.now ≡ piece_at r at }
    {
        let o = at - self.from;
        &self.bytes[o..o + PIECE.min(t.size - at)]
    }
}

// Whether the entry at `at` of the directory that `t` describes has that name.
pub fn name_at(card: &[u8], s: Cut, t: Desc, at: usize, name: &[u8]) -> bool
    requires { length name.now ≤ 64 }
    ensures { result ≡ same (entry_at (contents card.now s t.top (data_of s t) t.size) at).name name.now }
{
    let mut piece = [0; PIECE];
    gather_stream(&*card, s, t, at, &mut piece);
    let e = PIECE.min(t.size.saturating_sub(at));
    name_is(&piece[0..e], &*name)
}
