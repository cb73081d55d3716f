// What a card is to hold.
ghost use Rattle.std.specs.Prelude.{◌≡◌, ◌+◌, ◌*◌, ◌<◌};

use crate::draws::Draws;
use crate::entries::{Entry, Style};
use crate::free::Free;
use crate::kinds::Kind;
use crate::owners::Streams;
use crate::sizes::BlockSize;

// The bytes of a descriptor, and those of the table before the first one.
pub const DESCRIPTOR: u32 = 25;

pub const BEFORE_DESCRIPTORS: u32 = 8;

// Where descriptor `k` stands in the table; with `k` their number, where the table ends.
pub fn offset(k: u16) -> u32
    ensures { result ≡ BEFORE_DESCRIPTORS + DESCRIPTOR * k }
{
    BEFORE_DESCRIPTORS + DESCRIPTOR * u32::from(k)
}

#[derive(Drop)]
pub struct Plan {
    pub draws: Draws,
    pub kind: Kind,
    pub block: BlockSize,
    // How many descriptors the table has.
    pub descriptors: u16,
    pub streams: Streams,
    // The free descriptors, in the order of their chain.
    pub spares: Vec<u16>,
    // One entry for each named stream, and one more.
    pub entries: Vec<Entry>,
    // How many of them stand in the root.
    pub listed: usize,
    pub style: Style,
    pub free: Free,
    // Two entries whose names are to be the same.
    pub twins: Option<(usize, usize)>,
}

impl Plan {
    // An entry of the root, drawn.
    pub fn any_entry(&mut self) -> usize
        ensures bound { result < 2147483647 }
        ensures within { 0 < self.old.listed → result < self.old.listed }
    {
        self.draws.below(self.listed) as usize
    }

    // Settles where the entries stand in the root, and its size by that.
    pub fn place(&mut self) -> Option<()> {
        let mut at = 0;
        let entries = self.entries.as_mut_slice();
        for entry in entries.get_mut(..self.listed)? {
            entry.place = at;
            at = entry.end()?;
        }
        self.streams.root.size = at;
        Some(())
    }
}
