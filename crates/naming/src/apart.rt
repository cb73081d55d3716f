// Whether a directory's names differ: in buckets, so that a name is compared only with the earlier ones of its own.
ghost use Rattle.std.specs.Prelude.{◌≡◌, ◌≢◌, ◌+◌, ◌-◌, ◌<◌, ◌≤◌, length};
ghost use Rattle.layout.specs.Bytes.{pick};
ghost use Rattle.layout.specs.Filing.{name_length, entries, distinct_names};
ghost use Rattle.filing.specs.Paged.{piece_at};
ghost use Rattle.naming.specs.Buckets.{bucket_of, name_at, among, up_to, Linked, Filed};
ghost use Rattle.naming.specs.Rooted.{bytes_of, Tidy, Here};

use blocks::cut::Cut;
use filing::entries::{HEAD, read_head};
use filing::pages::{Page, name_at};
use layout::Desc;

// How many buckets there are.
const BUCKETS: usize = 1024;

// A name's bytes are mixed into one number below this one, each time by the factor.
const MIXED: usize = 65536;

const FACTOR: usize = 31;

// The most entries that a directory has.
const ENTRIES: usize = 256;

// An entry in its bucket: where it starts, and the entry before it there.
#[derive(Clone, Copy)]
struct Link {
    at: u32,
    before: Option<u8>,
}

// Entries in their buckets: each bucket's last one, and from each entry the one before.
#[derive(Drop)]
struct Buckets {
    last: [Option<u8>; BUCKETS],
    links: [Link; ENTRIES],
}

// The bucket of a name.
fn bucket(name: &[u8]) -> usize
    ensures { (result ≡ bucket_of name.now) × (result < 1024) }
{
    let mut h = 0;
    for b in name {
        h = (h * FACTOR + usize::from(*b)) % MIXED;
    }
    h % BUCKETS
}

impl Buckets {
    // Whether one of the entries up to number `x` has that name, where entry `x` is in its bucket.
    fn met(&self, card: &[u8], s: Cut, t: Desc, x: Option<u8>, name: &[u8]) -> bool
        requires { (length name.now ≤ 64) × (up_to x ≤ length (entries (bytes_of card.now s t))) × (length self.now.links ≡ 256) × Linked (entries (bytes_of card.now s t)) (up_to x) self.now.links × (up_to x ≢ 0 → bucket_of (name_at (entries (bytes_of card.now s t)) (up_to x - 1)) ≡ bucket_of name.now) }
        ensures { result ≡ among (entries (bytes_of card.now s t)) (up_to x) name.now }
    {
        let mut last = x;
        while let Some(j) = last {
            let link = self.links[usize::from(j)];
            if name_at(card, s, t, link.at as usize, name) {
                return true;
            }
            last = link.before;
        }
        false
    }

    // Files entry `i`, which is at `at` and in front of `piece`, in its bucket and gives its name's length; none where an earlier
    // entry has its name.
    fn file(
        &mut self,
        card: &[u8],
        s: Cut,
        t: Desc,
        piece: &[u8],
        at: usize,
        i: usize,
    ) -> Option<usize>
        requires { Here (bytes_of card.now s t) at i × (piece.now ≡ piece_at (bytes_of card.now s t) at) × Filed (entries (bytes_of card.now s t)) i self.old }
        ensures { (result ≡ pick (among (entries (bytes_of card.now s t)) i (name_at (entries (bytes_of card.now s t)) i)) None (Some (name_length (bytes_of card.now s t) at))) × (result ≢ None → Filed (entries (bytes_of card.now s t)) (i + 1) self.new) }
    {
        let n = read_head(piece).length;
        let name = &piece[HEAD..HEAD + n];
        let h = bucket(name);
        let before = self.last[h];
        if self.met(card, s, t, before, name) {
            return None;
        }
        self.links[i] = Link {
            at: at as u32,
            before,
        };
        self.last[h] = Some(i as u8);
        Some(n)
    }
}

// Whether no name stands twice in the directory that `t` describes: its entries are filed one after the other, up to the
// first whose name was met. No `for`: only an entry's bytes tell where the next one starts.
pub fn names_apart(card: &[u8], s: Cut, t: Desc) -> bool
    requires { Tidy (bytes_of card.now s t) }
    ensures { result ≡ distinct_names (entries (bytes_of card.now s t)) }
{
    let none = Link {
        at: 0,
        before: None,
    };
    let mut buckets = Buckets {
        last: [None; BUCKETS],
        links: [none; ENTRIES],
    };
    let mut page = Page::blank(t);
    let mut at = 0;
    let mut i = 0;
    while at < t.size {
        page.turn(card, s, t, at);
        let Some(n) = buckets.file(card, s, t, page.piece(t, at), at, i) else {
            return false;
        };
        at += HEAD + n;
        i += 1;
    }
    true
}
