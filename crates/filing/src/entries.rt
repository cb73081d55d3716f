// Entries: the head of one, and the search for a name.
ghost use Rattle.std.specs.Prelude.{◌≡◌, ◌+◌, ◌^◌, ◌<◌, ◌≤◌, length};
ghost use Rattle.layout.specs.Bytes.{num};
ghost use Rattle.layout.specs.Streams.{data_of, contents, stream};
ghost use Rattle.layout.specs.Filing.{name_length, entries, entries_of};
ghost use Rattle.filing.specs.Located.{located};

use crate::names::name_is;
use crate::pages::Page;
use blocks::cut::Cut;
use layout::Desc;
use memory::bytes::number;
use stream::descs::stream;

// The bytes of an entry before its name.
pub const HEAD: usize = 6;

// What these say: the index of its stream, and the length of its name.
#[derive(Clone, Copy)]
pub struct Head {
    pub index: usize,
    pub length: usize,
}

// Where a name is: the entry's number, its stream's index, where it starts.
#[derive(Clone, Copy)]
pub struct Found {
    pub number: usize,
    pub index: usize,
    pub at: usize,
}

// The head of the entry that `piece` starts with.
pub fn read_head(piece: &[u8]) -> Head
    ensures { (result.index ≡ num 4 piece.now 0) × (result.length ≡ name_length piece.now 0) × (result.length < 256 ^ 2) }
{
    Head {
        index: number(&*piece, 0, 4),
        length: number(&*piece, 4, 2),
    }
}

// The name's place in the directory that `t` describes; where it is not known, how many entries there are.
pub fn find(card: &[u8], s: Cut, t: Desc, name: &[u8]) -> Result<Found, usize>
    requires { (t.size < 2 ^ 62) × (length name.now ≤ 64) }
    ensures { result ≡ located (entries (contents card.now s t.top (data_of s t) t.size)) name.now 0 }
{
    let size = t.size;
    let mut page = Page::blank(t);
    let mut at = 0;
    // No more entries than bytes: the step is the entry's own length, which its page tells.
    for number in 0..size {
        if size <= at {
            return Err(number);
        }
        page.turn(card, s, t, at);
        let piece = page.piece(t, at);
        let h = read_head(piece);
        if name_is(piece, name) {
            return Ok(Found {
                number,
                index: h.index,
                at,
            });
        }
        at += HEAD + h.length;
    }
    Err(size)
}

// The name's place in directory `k`; where it is not known, how many entries there are.
pub fn look_up(card: &[u8], s: Cut, k: usize, name: &[u8]) -> Result<Found, usize>
    requires { (k < 2 ^ 56) × (length name.now ≤ 64) × ((stream card.now s k).size < 2 ^ 62) }
    ensures { result ≡ located (entries_of card.now s k) name.now 0 }
{
    find(card, s, stream(card, s, k), name)
}
