// Who owns blocks: the table, the root and the named streams.
ghost use Rattle.std.specs.Prelude.{◌≡◌, ◌-◌, ◌^◌, ◌<◌, ◌≤◌, length, slice_get, vec_len, Some, IfSome};
ghost use Rattle.samples.specs.declared.owners.Owner.TheVariants as Owner;

use crate::fault::Fault;
use crate::sizes::{BlockSize, ROWS};
use std::alloc::Global;

// Where a descriptor stands: the table's own in the header, all others in the table.
#[derive(Clone, Copy)]
pub enum Desc {
    Header,
    Table(u16),
}

#[derive(Drop)]
pub struct Stream {
    pub desc: Desc,
    pub size: u32,
    // How many blocks each row of the pyramid has.
    widths: [u16; ROWS],
    // The data, then row by row up to the top.
    pub blocks: Vec<u16>,
}

impl Stream {
    // A stream that has no blocks yet.
    pub fn new(alloc: Global, desc: Desc, size: u32) -> Stream
        ensures desc { result.desc ≡ desc }
        ensures size { result.size ≡ size }
        ensures blocks { vec_len result.blocks ≡ 0 }
    {
        Stream {
            desc,
            size,
            widths: [0; ROWS],
            blocks: Vec::new(alloc),
        }
    }

    // Settles how many blocks it has: so many.
    fn shape(&mut self, block: BlockSize) -> Option<u32>
        ensures { IfSome result (λ n. n ≤ 262140) }
    {
        self.widths = block.rows(block.data_blocks(self.size)?);
        let [data, low, high, highest] = self.widths;
        Some(u32::from(data) + u32::from(low) + u32::from(high) + u32::from(highest))
    }

    // Takes its blocks from the front of those that are left.
    fn take<'a>(&mut self, left: &'a [u16]) -> Result<&'a [u16], Fault> {
        let mut left = left;
        for &width in &self.widths {
            let Some((own, rest)) = left.split_at_checked(usize::from(width)) else {
                return Err(Fault::NoSuchPart);
            };
            self.blocks.extend_from_slice(own)?;
            left = rest;
        }
        Ok(left)
    }

    // The blocks of row `t`, row 0 being the data.
    pub fn row(&self, t: usize) -> Option<&[u16]>
        ensures { IfSome result (λ r. length r.now ≤ vec_len self.now.blocks) }
    {
        let mut left = self.blocks.as_slice();
        for &width in self.widths.get(..t)? {
            left = left.get(usize::from(width)..)?;
        }
        left.get(..usize::from(*self.widths.get(t)?))
    }

    pub fn data_blocks(&self) -> Option<&[u16]>
        ensures { IfSome result (λ r. length r.now ≤ vec_len self.now.blocks) }
    {
        self.row(0)
    }

    // The block at the top; 0 without data.
    pub fn top(&self) -> u16
        ensures none { vec_len self.now.blocks ≡ 0 → result ≡ 0 }
        ensures last { 0 < vec_len self.now.blocks → slice_get self.now.blocks.items (vec_len self.now.blocks - 1) ≡ Some result }
    {
        self.blocks.last().copied().unwrap_or(0)
    }

    // The bytes of its data blocks.
    pub fn reserved(&self, block: BlockSize) -> u32
        ensures { result < 2 ^ 28 }
    {
        let [data, ..] = self.widths;
        u32::from(data) * u32::from(block.bytes())
    }
}

#[derive(Clone, Copy)]
pub enum Owner {
    Table,
    Root,
    Named(usize),
}

// On a rich card: a named stream of 2 to 4 data blocks, one of 1, and one of none.
pub const LONG: Owner = Owner::Named(0);

pub const SHORT: Owner = Owner::Named(1);

pub const EMPTY: Owner = Owner::Named(2);

impl Owner {
    // The root and the named streams, counted from 0.
    pub fn live(j: u32) -> Owner
        ensures root { j ≡ 0 → result ≡ Owner.Root }
        ensures named { 0 < j → result ≡ Owner.Named (j - 1) }
    {
        match j.checked_sub(1) {
            None => Owner::Root,
            Some(e) => Owner::Named(e as usize),
        }
    }
}

#[derive(Drop)]
pub struct Streams {
    pub table: Stream,
    pub root: Stream,
    pub named: Vec<Stream>,
}

impl Streams {
    pub fn of(&self, owner: Owner) -> Option<&Stream> {
        match owner {
            Owner::Table => Some(&self.table),
            Owner::Root => Some(&self.root),
            Owner::Named(e) => self.named.get(e),
        }
    }

    pub fn of_mut(&mut self, owner: Owner) -> Option<&mut Stream> {
        match owner {
            Owner::Table => Some(&mut self.table),
            Owner::Root => Some(&mut self.root),
            Owner::Named(e) => self.named.get_mut(e),
        }
    }

    // Settles how many blocks each stream has, and how many that is together.
    pub fn shape(&mut self, block: BlockSize) -> Option<u32> {
        let mut used = self
            .table
            .shape(block)?
            .checked_add(self.root.shape(block)?)?;
        for stream in &mut self.named {
            used = used.checked_add(stream.shape(block)?)?;
        }
        Some(used)
    }

    // Gives out blocks, owner after owner, and answers those that are left.
    pub fn give<'a>(&mut self, blocks: &'a [u16]) -> Result<&'a [u16], Fault> {
        let left = self.table.take(blocks)?;
        let mut left = self.root.take(left)?;
        for stream in &mut self.named {
            left = stream.take(left)?;
        }
        Ok(left)
    }
}
