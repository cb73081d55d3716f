// What a plan is drawn by, and how: a step of G4 after the other.
ghost use Rattle.std.specs.Prelude.{◌<◌, ◌≤◌};

use crate::draws::Draws;
use crate::entries::{Entry, Style};
use crate::fault::Fault;
use crate::free::Free;
use crate::kinds::Kind;
use crate::owners::{Desc, Stream, Streams};
use crate::plan::{Plan, offset};
use crate::sizes::BlockSize;
use std::alloc::{AllocError, Global};

#[derive(Drop)]
pub struct Draft {
    pub draws: Draws,
    pub kind: Kind,
    pub block: BlockSize,
}

// The most descriptors but for the root's.
const MOST_OTHERS: u32 = 255;

// The longest name.
const MOST_NAME: u16 = 64;

// How many descriptors there are: the root's, those of the named streams and the spares.
fn descriptors_of(named: u32, spares: u32) -> Result<u16, Fault> {
    let n = 1 + u64::from(named) + u64::from(spares);
    u16::try_from(n).map_err(|_| Fault::NoSuchPart)
}

// The indices of `m` named streams and those of the spares, after the root's.
fn parted(order: &[u16], m: usize) -> Result<(&[u16], &[u16]), Fault> {
    let others = order.get(1..).ok_or(Fault::NoSuchPart)?;
    others.split_at_checked(m).ok_or(Fault::NoSuchPart)
}

// A common size of a stream: none, whole blocks, a byte more than whole blocks, any. `a` is a number of the dice, below 4.
fn common_size(z: u32, a: u32, b: u32) -> u32
    requires { (64 ≤ z) × (z ≤ 4096) × (b < 2147483647) }
{
    let whole = b - b % z + z;
    match a {
        0 => 0,
        1 => whole,
        2 => whole + 1,
        _ => b + 1,
    }
}

impl Draft {
    // Spares; where the streams are many, as many as there is room for.
    fn spares(&mut self, named: u32) -> u32 {
        let v = self.draws.one_in(self.kind.spares());
        match self.kind {
            Kind::ManyStreams => MOST_OTHERS.saturating_sub(named),
            _ => v,
        }
    }

    fn free(&mut self) -> Free {
        let q = self.draws.one_in(self.kind.free());
        match self.kind {
            Kind::MostBlocks => Free::Most,
            _ => Free::Drawn(q),
        }
    }

    // The indices in their order: the root's, which is 0, those of the named streams and those of the spares.
    fn order(&mut self, alloc: Global, n: u16) -> Result<Vec<u16>, AllocError> {
        let mut order: Vec<u16> = (0..n).collect(alloc)?;
        if self.kind != Kind::InOrder
            && let Some(others) = order.as_mut_slice().get_mut(1..)
        {
            self.draws.shuffle(others);
        }
        Ok(order)
    }

    // The size of named stream `e`.
    fn size(&mut self, e: usize) -> u32 {
        let z = u32::from(self.block.bytes());
        let a = self.draws.below(4);
        let b = self.draws.below(3 * usize::from(self.block.bytes()));
        match (self.kind, e) {
            (Kind::Rich, 0) => z + 1 + b,
            (Kind::Rich, 1) => 1 + b % z,
            (Kind::Rich, 2) => 0,
            (Kind::Tall, 0) => (16 + b) * z + 1 + a,
            (Kind::Taller, 0) => (256 + b) * z + 1 + a,
            (Kind::ManyStreams, 3..) => 0,
            _ => common_size(z, a, b),
        }
    }

    // The named streams; the last one's size is drawn first.
    fn named(&mut self, alloc: Global, indices: &[u16]) -> Result<Vec<Stream>, AllocError> {
        let mut named = Vec::new(alloc);
        for (e, &index) in indices.iter().enumerate().rev() {
            let size = self.size(e);
            named.push(Stream::new(alloc, Desc::Table(index), size))?;
        }
        named.reverse();
        Ok(named)
    }

    // The length of a name; on a rich card the last named stream's has 8 to 47 bytes.
    fn length(&mut self, last: bool) -> u16 {
        let n = 1 + self.draws.below(usize::from(MOST_NAME)) as u16;
        match self.kind {
            Kind::LongNames => MOST_NAME,
            Kind::Rich if last => 8 + n % 40,
            _ => n,
        }
    }

    // The entries, and one more, which a clause may add; its length is drawn first.
    fn entries(&mut self, alloc: Global, indices: &[u16]) -> Result<Vec<Entry>, AllocError> {
        let mut entries = Vec::new(alloc);
        for e in (0..indices.len() + 1).rev() {
            let index = indices.get(e).map_or(0, |k| u32::from(*k));
            let length = self.length(e + 1 == indices.len());
            entries.push(Entry {
                index,
                length,
                place: 0,
            })?;
        }
        entries.reverse();
        Ok(entries)
    }

    fn style(&mut self) -> Style {
        if self.draws.below(2) == 0 {
            Style::Noise
        } else {
            Style::Letter
        }
    }

    // Draws the plan.
    pub fn plan(mut self, alloc: Global) -> Result<Plan, Fault> {
        let m = self.draws.one_in(self.kind.named());
        let v = self.spares(m);
        let free = self.free();
        let descriptors = descriptors_of(m, v)?;
        let order = self.order(alloc, descriptors)?;
        let (named, spares) = parted(&order, m as usize)?;
        let streams = Streams {
            table: Stream::new(alloc, Desc::Header, offset(descriptors)),
            root: Stream::new(alloc, Desc::Table(0), 0),
            named: self.named(alloc, named)?,
        };
        let entries = self.entries(alloc, named)?;
        let style = self.style();
        let Draft { draws, kind, block } = self;
        Ok(Plan {
            draws,
            kind,
            block,
            descriptors,
            streams,
            spares: Vec::from_slice(alloc, spares)?,
            entries,
            listed: named.len(),
            style,
            free,
            twins: None,
        })
    }
}
