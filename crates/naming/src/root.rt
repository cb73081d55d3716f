// Rule 8: the root's entries, their names, and the streams that they lead to.
ghost use Rattle.std.specs.Prelude.{◌≡◌, ◌≢◌, true, ◌≤◌, ◌∷◌, length, replicate, set};
ghost use Rattle.layout.specs.Limits.{most_streams};
ghost use Rattle.layout.specs.Bytes.{pick, both, num, over};
ghost use Rattle.layout.specs.Marks.{fresh, mark_ok, mark_set};
ghost use Rattle.layout.specs.Streams.{table_bytes};
ghost use Rattle.layout.specs.Filing.{name_length, entries};
ghost use Rattle.layout.specs.Sound.{rule4, rule8};
ghost use Rattle.tables.specs.OnPage.{Reads};
ghost use Rattle.naming.specs.Rooted.{bytes_of, good_at, tidy_from, indices};

use crate::apart::names_apart;
use blocks::cut::Cut;
use filing::entries::{HEAD, read_head};
use filing::names::good_name;
use filing::pages::Page;
use layout::Desc;
use marking::marks::mark;
use memory::runs::clear;
use stream::descs::descriptors;
use tables::forms::descriptor_at;
use tables::spare::right_marks;

// Marks the stream that the entry in front of `piece` leads to and gives its name's length; none where the entry is cut off,
// its name is not good, or its stream is out of range or marked.
fn mark_entry(piece: &[u8], n: usize, marks: &mut [u8]) -> Option<usize>
    ensures { (result ≡ pick (both (good_at piece.now 0) (fresh n marks.old (num 4 piece.now 0))) (Some (name_length piece.now 0)) None) × (result ≢ None → marks.new ≡ set marks.old (num 4 piece.now 0) 1) }
{
    let head = read_head(piece);
    let name = piece.get(HEAD..HEAD + head.length)?;
    if !good_name(name) || !mark(marks, n, head.index) {
        return None;
    }
    Some(head.length)
}

// Marks the streams that the entries lead to, up to the first entry that is not in order. No `for`: only an entry's bytes tell
// where the next one starts.
fn mark_entries(card: &[u8], s: Cut, t: Desc, n: usize, marks: &mut [u8]) -> bool
    ensures { (result ≡ both (tidy_from (bytes_of card.now s t) 0) (mark_ok n marks.old (indices (entries (bytes_of card.now s t))))) × (result ≡ true → marks.new ≡ mark_set n marks.old (indices (entries (bytes_of card.now s t)))) }
{
    let mut page = Page::blank(t);
    let mut at = 0;
    while at < t.size {
        page.turn(card, s, t, at);
        let Some(length) = mark_entry(page.piece(t, at), n, marks) else {
            return false;
        };
        at += HEAD + length;
    }
    true
}

// Clears the marks and marks the streams that the root leads to, itself the first, up to the first entry that is not in order.
#[tactic(auto, using(crate::proofs::Reached::none_of), unfolding(layout::specs::Marks::mark_ok, layout::specs::Marks::mark_set))]
fn mark_root(card: &[u8], s: Cut, t: Desc, n: usize, marks: &mut [u8]) -> bool
    ensures { (result ≡ both (tidy_from (bytes_of card.now s t) 0) (mark_ok n (over marks.old 0 (replicate n 0)) (0 ∷ indices (entries (bytes_of card.now s t))))) × (result ≡ true → marks.new ≡ mark_set n (over marks.old 0 (replicate n 0)) (0 ∷ indices (entries (bytes_of card.now s t)))) }
{
    clear(marks, 0, n);
    mark(marks, n, 0) && mark_entries(card, s, t, n, marks)
}

// Rule 8: entry by entry to the very end, names good and not twice, and the streams that the root leads to, itself the first,
// are the live ones, each once. The marks are lent for the work.
pub fn rule8(card: &[u8], s: Cut, tab: &[u8], marks: &mut [u8]) -> bool
    requires { (rule4 card.now s ≡ true) × Reads tab.now (table_bytes card.now s) × (most_streams ≤ length marks.old) }
    ensures { result ≡ rule8 card.now s }
{
    let n = descriptors(card, s);
    let t = descriptor_at(tab, 0);
    mark_root(card, s, t, n, marks) && right_marks(tab, true, n, marks) && names_apart(card, s, t)
}
