// An entry by its number.
ghost use Rattle.std.specs.Prelude.{◌≡◌, ◌^◌, ◌<◌, ◌≤◌, IfSome};
ghost use Rattle.layout.specs.Streams.{data_of, contents};
ghost use Rattle.layout.specs.Filing.{entries};
ghost use Rattle.filing.specs.Located.{numbered};

use crate::entries::{HEAD, read_head};
use crate::pages::Page;
use blocks::cut::Cut;
use layout::Desc;

// An entry: its stream's index, where it starts, its name's length.
#[derive(Clone, Copy)]
pub struct Row {
    pub index: usize,
    pub at: usize,
    pub length: usize,
}

// Entry number `n` of the directory that `t` describes, where there is one.
pub fn nth_entry(card: &[u8], s: Cut, t: Desc, n: usize) -> Option<Row>
    requires { t.size < 2 ^ 62 }
    ensures numbered { result ≡ numbered (entries (contents card.now s t.top (data_of s t) t.size)) n }
    ensures at { IfSome result (λ row. row.at ≤ t.size) }
{
    let size = t.size;
    let mut page = Page::blank(t);
    let mut at = 0;
    // No more entries than bytes, as in `find`.
    for k in 0..size {
        if size <= at {
            break;
        }
        page.turn(card, s, t, at);
        let h = read_head(page.piece(t, at));
        if k == n {
            return Some(Row {
                index: h.index,
                at,
                length: h.length.min(size.saturating_sub(at + HEAD)),
            });
        }
        at += HEAD + h.length;
    }
    None
}
